// The shape of a query: its head, and which variables its atoms join.
#![tactic(auto)]

mod checks;
mod verdicts;

pub use checks::Ends;
pub use verdicts::{Fault, check_shape};
