ghost use Rattle.graph.specs.Changes.{Applies};

use super::edges::Edge;
use super::interface::Graph;
use super::outcomes::{Fault, Put, Strike};

// A call that changes a graph.
#[derive(Clone, Copy)]
pub enum Change {
    Put(Edge),
    Strike(Edge),
}

// What an accepted change answers.
#[derive(Clone, Copy)]
pub enum Changed {
    Put(Put),
    Strike(Strike),
}

// Makes one change to a graph.
pub fn apply<G: Graph>(graph: &mut G, change: Change) -> Result<Changed, Fault>
    ensures { Applies (G.Graph.graph graph.old) change result (G.Graph.graph graph.new) }
{
    match change {
        Change::Put(e) => Ok(Changed::Put(graph.put(e)?)),
        Change::Strike(e) => Ok(Changed::Strike(graph.strike(e)?)),
    }
}
