// Position automata of path expressions: at most 63 positions and a start state, in words of 64 bits.
#![tactic(auto)]

mod builder;
mod machine;
mod symbols;

pub use builder::{Builder, Part, either, optional};
pub use machine::{Automaton, finish};
pub use symbols::Symbol;
