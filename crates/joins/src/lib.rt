// Semijoins over the tables of a query in a workspace: two passes leave exactly the pairs that satisfying assignments use.
#![tactic(auto)]

mod passes;
mod sides;

pub use passes::reduce_all;
pub use sides::Side;
