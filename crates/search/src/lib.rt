// The lowest tuple that fits the tables of a workspace, above the last one given.
#![tactic(auto)]

mod finding;
mod fitting;
mod places;
mod searching;
mod tables;

pub use finding::find_places;
pub use places::{Pair, Places, Root};
pub use searching::lowest;
pub use tables::Tables;
