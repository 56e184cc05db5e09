// Labelled directed graphs behind one interface, and the kinds of graph.
#![tactic(auto)]

mod changes;
mod edges;
mod interface;
mod list;
mod list_graph;
mod outcomes;
mod replays;
mod sizes;
mod successors;
mod table;
mod table_graph;

pub use changes::{Change, Changed, apply};
pub use edges::Edge;
pub use interface::{Graph, check_edge};
pub use list::EdgeList;
pub use outcomes::{Fault, Put, SizeFault, Strike};
pub use replays::{Tally, replay};
pub use sizes::{ListSizes, Sizes, TableSizes};
pub use successors::Successors;
pub use table::SmallTable;
