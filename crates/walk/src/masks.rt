ghost use Rattle.std.specs.Prelude.{◌≡◌, ℕ, ◌<◌, ◌≤◌, ◌↔◌, length, Decides};
ghost use Rattle.meaning.specs.Words.{Matches};
ghost use Rattle.automata.specs.Parts.{meant};
ghost use Rattle.bits.specs.Bits.{Has};
ghost use Rattle.walk.specs.Moves.{Entering, Enters, Successors};

use super::walks::Walk;
use automata::{Automaton, Symbol};
use bits::{Members, marked};
use graph::Graph;
use meaning::LabelId;

impl<'a, G: Graph> Walk<'a, G> {
    pub(crate) fn new(graph: &'a G, automaton: &'a Automaton) -> Walk<'a, G>
        ensures graph { result.graph.now ≡ graph.now }
        ensures automaton { result.automaton.now ≡ automaton.now }
    {
        Walk {
            graph,
            automaton,
            masks: masks(automaton, graph.label_count()),
        }
    }
}

// Whether a symbol reads a label of the graph.
fn reads(symbol: Symbol, label: LabelId) -> bool
    ensures { (q : ℕ) → label < q → Decides result (Matches q (meant symbol) label) }
{
    match symbol {
        Symbol::Label(a) => label == a,
        Symbol::Any => true,
    }
}

// The set of the states that are entered by a label of the graph.
fn entered_by(automaton: &Automaton, label: LabelId) -> u64
    ensures { (q t : ℕ) → label < q → Has result t ↔ Enters q automaton.now t label }
{
    let mut states = 0;
    // By number: over the array's `iter` the proof is not told how long an array of an enum is.
    for t in 0..64usize {
        if reads(automaton.symbols[t], label) {
            states = marked(states, t);
        }
    }
    states
}

// For each label below `labels`, the set of the states that are entered by it.
fn masks(automaton: &Automaton, labels: LabelId) -> [u64; 26]
    requires { labels ≤ 26 }
    ensures long { length result ≡ 26 }
    ensures each { (q : ℕ) → q ≤ labels → Entering q automaton.now result }
{
    let mut masks = [0; 26];
    for (label, states) in masks[..labels as usize].iter_mut().enumerate() {
        *states = entered_by(automaton, label as LabelId);
    }
    masks
}

// The set of the states that follow some state of `states`.
pub(crate) fn successors(automaton: &Automaton, states: u64) -> u64
    ensures { Successors automaton.now states result }
{
    let mut next = 0;
    for s in Members(states) {
        next |= automaton.follow[s];
    }
    next
}
