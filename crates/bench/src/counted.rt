ghost use Rattle.graph.specs.Calls.{Puts, Strikes};

use graph::{Edge, Fault, Graph, Put, Strike};
use meaning::{LabelId, NodeId};
use std::cell::Cell;

// A graph that counts the follow questions that it is asked.
pub struct Counted<G> {
    pub graph: G,
    pub asked: Cell<u64>,
}

impl<G: Graph> Graph for Counted<G> {
    ghost graph = { λ c. G.Graph.graph c.graph };

    fn node_count(&self) -> NodeId {
        self.graph.node_count()
    }

    fn label_count(&self) -> LabelId {
        self.graph.label_count()
    }

    fn capacity(&self) -> usize {
        self.graph.capacity()
    }

    fn edge_count(&self) -> usize {
        self.graph.edge_count()
    }

    fn put(&mut self, e: Edge) -> Result<Put, Fault> {
        self.graph.put(e)
    }

    fn strike(&mut self, e: Edge) -> Result<Strike, Fault> {
        self.graph.strike(e)
    }

    fn follow(&self, node: NodeId, label: LabelId, bound: NodeId) -> Option<NodeId> {
        self.asked.set(self.asked.get().saturating_add(1));
        self.graph.follow(node, label, bound)
    }
}
