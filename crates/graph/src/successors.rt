ghost use Rattle.std.specs.Prelude.{◌≡◌};
ghost use Rattle.std.specs.Iterator.{at_most};
ghost use Rattle.graph.specs.Successors.{Follows, left};

use super::interface::Graph;
use meaning::{LabelId, NodeId};

// The nodes to which edges lead from a node under a label, rising.
#[derive(Drop)]
pub struct Successors<'a, G> {
    pub(crate) graph: &'a G,
    pub(crate) node: NodeId,
    pub(crate) label: LabelId,
    // The lowest node that may come.
    pub(crate) bound: NodeId,
}

impl<'a, G: Graph> Successors<'a, G> {
    // Those of a node under a label.
    pub fn of(graph: &'a G, node: NodeId, label: LabelId) -> Successors<'a, G>
        ensures graph { result.graph.now ≡ graph.now }
        ensures node { result.node ≡ node }
        ensures label { result.label ≡ label }
        ensures bound { result.bound ≡ 0 }
    {
        Successors {
            graph,
            node,
            label,
            bound: 0,
        }
    }
}

impl<'a, G: Graph> Iterator for Successors<'a, G> {
    type Item = NodeId;

    ghost next_gives = { λ s r t. Follows (G.Graph.graph s.graph.now) s.node s.label s.bound r t.bound × (t.graph.now ≡ s.graph.now) × (t.node ≡ s.node) × (t.label ≡ s.label) };

    ghost remaining = { λ s. at_most (left s.bound) };

    fn next(&mut self) -> Option<NodeId> {
        let to = self.graph.follow(self.node, self.label, self.bound)?;
        self.bound = to + 1;
        Some(to)
    }
}
