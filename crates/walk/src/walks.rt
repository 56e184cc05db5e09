ghost use Rattle.std.proofs.Props.{props};
ghost use Rattle.walk.specs.Moves.{Entering, matches_prop};

use automata::Automaton;
use graph::Graph;

// A graph and the automaton of an expression that is walked over it.
#[derive(Drop)]
pub(crate) struct Walk<'a, G: Graph> {
    pub(crate) graph: &'a G,
    pub(crate) automaton: &'a Automaton,
    // For each label of the graph, the set of the states that are entered by it.
    pub(crate) masks: [u64; 26],
    ghost entering: { Entering (G.Graph.graph graph.now).labels automaton.now masks } by { Prim.hlevel (props, matches_prop) },
}
