// Words as sets of bits, and rows of bits in a slice of words. Bit i of a word is counted from the lowest; a number past 63 is taken modulo 64.
// No other code divides by 64.
#![tactic(auto)]

mod layout;
mod members;
mod rows;
mod words;

pub use layout::Rows;
pub use members::Members;
pub use rows::{clear, has_some, narrow, set, test, widen, width};
pub use words::{cleared, has, lowest, marked, without_lowest};
