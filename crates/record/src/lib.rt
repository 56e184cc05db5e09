// The record of a query, its states, and open.
#![tactic(auto)]

mod calls;
mod opening;
mod records;
#[cfg(test)]
mod tests;

pub use opening::open;
pub use records::{Blank, Listing, Opened, Query};
