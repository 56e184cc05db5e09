ghost use Rattle.std.specs.Prelude.{◌+◌, ◌*◌, ◌≤◌, length};
ghost use Rattle.automata.specs.Machines.{Recognizes};
ghost use Rattle.automata.specs.Positions.{size};
ghost use Rattle.bits.specs.Rows.{width as words_of};
ghost use Rattle.meaning.specs.Paths.{Joins};
ghost use Rattle.meaning.specs.Words.{Regex};
ghost use Rattle.walk.specs.Rows.{Kept, RowAt};
ghost use Rattle.walk.specs.Tables.{Tells, Written};

use super::walks::Walk;
use automata::Automaton;
use bits::{clear, set, width};
use graph::Graph;

// Writes the row of bits that tells at which of n nodes a state of `accept` is seen; the words of states seen stand from `scratch` on.
fn write_row(words: &mut [u64], scratch: usize, n: usize, accept: u64, start: usize)
    requires scratch { scratch + n ≤ length words.old }
    requires before { start + words_of n ≤ scratch }
    ensures { RowAt (Kept words.old scratch n accept) words.old words.new start (words_of n) }
{
    clear(words, start, width(n));
    // By number: it is a node, a bit of the row and a place among the words.
    for v in 0..n {
        if words[scratch + v] & accept != 0 {
            set(words, start, v);
        }
    }
}

// Fills the table at `start` with the result of the regular path query whose automaton is given: exactly the pairs of nodes that some path joins
// whose labels spell a word of the expression. The two words for each node from `scratch` on are scratch, 0 afterwards; no other word changes.
pub fn fill_table<G: Graph>(
    graph: &G,
    automaton: &Automaton,
    words: &mut [u64],
    start: usize,
    scratch: usize,
)
    requires table { start + (G.Graph.graph graph.now).nodes * words_of (G.Graph.graph graph.now).nodes ≤ scratch }
    requires room { scratch + ((G.Graph.graph graph.now).nodes + (G.Graph.graph graph.now).nodes) ≤ length words.old }
    ensures pairs { (r : Regex) → Recognizes automaton.now r → size r ≤ 63 → Tells (Joins (G.Graph.graph graph.now).has (G.Graph.graph graph.now).labels r) words.new start (G.Graph.graph graph.now).nodes }
    ensures written { Written words.old words.new start (G.Graph.graph graph.now).nodes scratch }
{
    let n = graph.node_count() as usize;
    let row = width(n);
    let walk = Walk::new(graph, automaton);
    for source in 0..graph.node_count() {
        walk.run_from(source, &mut words[scratch..scratch + (n + n)]);
        write_row(
            words,
            scratch,
            n,
            automaton.accept,
            start + source as usize * row,
        );
    }
    clear(words, scratch, n + n);
}
