ghost use Rattle.std.specs.Prelude.{◌≡◌, ℕ, ◌+◌, ◌<◌, false, ◌↔◌, List, length, take, drop, if◌then◌else◌, slice_index};
ghost use Rattle.meaning.specs.Paths.{Path};
ghost use Rattle.walk.specs.Moves.{In, Leads, Reaches};
ghost use Rattle.walk.specs.Walked.{Falls, GoesOn, Seeded};

use super::marks::mark;
use super::walks::Walk;
use graph::Graph;
use meaning::NodeId;

impl<G: Graph> Walk<'_, G> {
    // Takes the states that wait at a node, if any do, and marks what they lead to.
    fn turn(&self, node: NodeId, z: &mut [u64]) -> bool
        requires below { node < (G.Graph.graph self.now.graph.now).nodes }
        requires scratch { length z.old ≡ (G.Graph.graph self.now.graph.now).nodes + (G.Graph.graph self.now.graph.now).nodes }
        ensures on { GoesOn (G.Graph.graph self.now.graph.now).has (G.Graph.graph self.now.graph.now).labels self.now.automaton.now (G.Graph.graph self.now.graph.now).nodes z.old z.new }
        ensures less { Falls (G.Graph.graph self.now.graph.now).nodes z.old z.new (if result then 1 else 0) }
        ensures none { result ≡ false → (z.new ≡ z.old) × (slice_index (drop (G.Graph.graph self.now.graph.now).nodes z.old) node ≡ 0) }
    {
        let n = self.graph.node_count() as usize;
        let place = n + node as usize;
        let states = z[place];
        if states == 0 {
            return false;
        }
        z[place] = 0;
        self.step(node, states, z);
        true
    }

    // One turn at each node; whether any state waited.
    fn pass(&self, z: &mut [u64]) -> bool
        requires scratch { length z.old ≡ (G.Graph.graph self.now.graph.now).nodes + (G.Graph.graph self.now.graph.now).nodes }
        ensures on { GoesOn (G.Graph.graph self.now.graph.now).has (G.Graph.graph self.now.graph.now).labels self.now.automaton.now (G.Graph.graph self.now.graph.now).nodes z.old z.new }
        ensures less { Falls (G.Graph.graph self.now.graph.now).nodes z.old z.new (if result then 1 else 0) }
        ensures none { result ≡ false → (v : ℕ) → v < (G.Graph.graph self.now.graph.now).nodes → slice_index (drop (G.Graph.graph self.now.graph.now).nodes z.new) v ≡ 0 }
    {
        let mut any = false;
        for node in 0..self.graph.node_count() {
            if self.turn(node, z) {
                any = true;
            }
        }
        any
    }

    // Walks on from the pairs of a node and a state that are seen and wait at the beginning: at the end exactly the pairs that these reach are seen.
    fn run(&self, z: &mut [u64])
        requires scratch { length z.old ≡ (G.Graph.graph self.now.graph.now).nodes + (G.Graph.graph self.now.graph.now).nodes }
        requires seeds { Seeded (G.Graph.graph self.now.graph.now).nodes z.old }
        ensures { (v s : ℕ) → In (take (G.Graph.graph self.now.graph.now).nodes z.new) v s ↔ Reaches (G.Graph.graph self.now.graph.now).has (G.Graph.graph self.now.graph.now).labels self.now.automaton.now (take (G.Graph.graph self.now.graph.now).nodes z.old) v s }
    {
        while self.pass(z) {}
    }

    // Walks from one node and the start state: at the end exactly the pairs that these reach are seen.
    pub(crate) fn run_from(&self, source: NodeId, z: &mut [u64])
        requires below { source < (G.Graph.graph self.now.graph.now).nodes }
        requires scratch { length z.old ≡ (G.Graph.graph self.now.graph.now).nodes + (G.Graph.graph self.now.graph.now).nodes }
        ensures { (v s : ℕ) → In (take (G.Graph.graph self.now.graph.now).nodes z.new) v s ↔ ((x : List ℕ) × Path (G.Graph.graph self.now.graph.now).has source x v × Leads (G.Graph.graph self.now.graph.now).labels self.now.automaton.now 0 x s) }
    {
        z.fill(0);
        mark(z, self.graph.node_count() as usize, source as usize, 1);
        self.run(z);
    }
}
