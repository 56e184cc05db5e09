// The result of one path expression over any graph: a walk over the product of the graph and the expression's automaton.
#![tactic(auto)]

mod marks;
mod masks;
mod passes;
mod tables;
mod walks;

pub use tables::fill_table;
