// The tables of a query over any graph: filled for each atom, and reduced to the pairs that satisfying assignments use.
#![tactic(auto)]

mod filling;

pub use filling::fill_tables;
