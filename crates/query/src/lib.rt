// Query texts: path expressions and whole queries, read into position automata.
#![tactic(auto)]

mod cursor;
mod drafts;
mod expressions;
mod parts;
mod reader;
mod texts;

pub use drafts::{Atom, Fault, Head, Query};
pub use expressions::read_expression;
pub use texts::read_query;
