ghost use Rattle.std.specs.Prelude.{◌≡◌};
ghost use Rattle.meaning.specs.Graphs.{Graph as Meaning, size};
ghost use Rattle.graph.specs.Calls.{Checks, Puts, Strikes};
ghost use Rattle.graph.specs.Edges.{Lowest};

use super::edges::Edge;
use super::outcomes::{Fault, Put, Strike};
use meaning::{LabelId, NodeId};

// A labelled directed graph: so many nodes, labels and places for edges, which never change, and a set of edges.
pub trait Graph {
    // The graph that a value stands for.
    ghost graph: { Self → Meaning };

    fn node_count(&self) -> NodeId
        ensures { result ≡ (graph self.now).nodes };

    fn label_count(&self) -> LabelId
        ensures { result ≡ (graph self.now).labels };

    // The number of edges that there is room for.
    fn capacity(&self) -> usize
        ensures { result ≡ (graph self.now).capacity };

    fn edge_count(&self) -> usize
        ensures { result ≡ size (graph self.now) };

    // Adds an edge.
    fn put(&mut self, e: Edge) -> Result<Put, Fault>
        ensures { Puts (graph self.old) e result (graph self.new) };

    // Removes an edge.
    fn strike(&mut self, e: Edge) -> Result<Strike, Fault>
        ensures { Strikes (graph self.old) e result (graph self.new) };

    // The lowest node of at least `bound` to which an edge leads from `node` under `label`. It takes all numbers.
    fn follow(&self, node: NodeId, label: LabelId, bound: NodeId) -> Option<NodeId>
        ensures { Lowest (graph self.now).has node label bound result };
}

// Whether an edge joins nodes below `nodes` under a label below `labels`.
pub fn check_edge(nodes: NodeId, labels: LabelId, e: Edge) -> Result<(), Fault>
    ensures { Checks nodes labels e result }
{
    if e.from >= nodes || e.to >= nodes {
        return Err(Fault::Node);
    }
    if e.label >= labels {
        return Err(Fault::Label);
    }
    Ok(())
}
