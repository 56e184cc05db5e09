ghost use Rattle.std.specs.Prelude.{◌≡◌, ℕ, ◌+◌, ◌<◌, true, length};
ghost use Rattle.bits.specs.Bits.{Has};
ghost use Rattle.walk.specs.Marked.{Grew};
ghost use Rattle.walk.specs.Moves.{Moves};

use super::masks::successors;
use super::walks::Walk;
use graph::{Graph, Successors};
use meaning::{LabelId, NodeId};

// Adds states to those seen at a node, and the new ones among them to those waiting there.
// The scratch words z are a word of states seen for each of n nodes, and then a word of states waiting for each.
// No struct has them and their length: over a slice that is lent on, each contract would say instead that it is the same slice still.
pub(crate) fn mark(z: &mut [u64], n: usize, node: usize, states: u64)
    requires below { node < n }
    requires scratch { length z.old ≡ n + n }
    ensures { Grew n z.old z.new (λ w s. (w ≡ node) × Has states s) }
{
    let new = states & !z[node];
    z[node] |= new;
    z[n + node] |= new;
}

// Marks the states at each node to which an edge leads from a node under a label.
fn spread<G: Graph>(graph: &G, node: NodeId, label: LabelId, states: u64, z: &mut [u64])
    requires { length z.old ≡ (G.Graph.graph graph.now).nodes + (G.Graph.graph graph.now).nodes }
    ensures { Grew (G.Graph.graph graph.now).nodes z.old z.new (λ w s. ((G.Graph.graph graph.now).has node label w ≡ true) × Has states s) }
{
    if states == 0 {
        return;
    }
    let n = graph.node_count() as usize;
    for to in Successors::of(graph, node, label) {
        mark(z, n, to as usize, states);
    }
}

impl<G: Graph> Walk<'_, G> {
    // Marks what one edge and one step of the automaton lead to from a node in the states of a set.
    pub(crate) fn step(&self, node: NodeId, states: u64, z: &mut [u64])
        requires { length z.old ≡ (G.Graph.graph self.now.graph.now).nodes + (G.Graph.graph self.now.graph.now).nodes }
        ensures { Grew (G.Graph.graph self.now.graph.now).nodes z.old z.new (λ w t. (s : ℕ) × Has states s × Moves (G.Graph.graph self.now.graph.now).has (G.Graph.graph self.now.graph.now).labels self.now.automaton.now node s w t) }
    {
        let after = successors(self.automaton, states);
        for label in 0..self.graph.label_count() {
            spread(
                self.graph,
                node,
                label,
                after & self.masks[label as usize],
                z,
            );
        }
    }
}
