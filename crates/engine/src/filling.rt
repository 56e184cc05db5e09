ghost use Rattle.std.specs.Prelude.{ℕ, ◌+◌, ◌*◌, ◌<◌, ◌≤◌, List, length};
ghost use Rattle.bits.specs.Rows.{width as words_of};
ghost use Rattle.parse.specs.Meanings.{meaning};
ghost use Rattle.parse.specs.Parsing.{Accepted};
ghost use Rattle.engine.specs.Filled.{Arrangement, Filled, Raw};

use bits::{Rows, width};
use graph::Graph;
use joins::reduce_all;
use parse::{Parsed, ends};
use query::Query;
use walk::fill_table;

// Fills the table of each atom with the pairs of nodes that its expression joins. The two words for each node behind the tables are scratch.
fn fill_each<G: Graph>(graph: &G, query: &Query, words: &mut [u64])
    requires few { query.now.count ≤ 8 }
    requires room { query.now.count * ((G.Graph.graph graph.now).nodes * words_of (G.Graph.graph graph.now).nodes) + ((G.Graph.graph graph.now).nodes + (G.Graph.graph graph.now).nodes) ≤ length words.old }
    ensures { Raw (G.Graph.graph graph.now) query.now.atoms query.now.count words.old words.new query.now.count }
{
    let n = graph.node_count() as usize;
    let size = n * width(n);
    let scratch = query.count * size;
    // By number: over the slice of the atoms the proof is not told how long an array of structs is.
    for c in 0..query.count {
        let atom = query.atoms[c];
        fill_table(graph, &atom.automaton, words, c * size, scratch);
    }
}

// Fills the tables of a query's atoms, in the order of the text, and reduces each to the pairs that satisfying assignments use.
// The two words for each node behind the tables are scratch, 0 afterwards; no word behind them changes.
pub fn fill_tables<G: Graph>(graph: &G, parsed: &Parsed, words: &mut [u64])
    requires some { (0 < parsed.now.query.count) × (parsed.now.query.count ≤ 8) }
    requires order { Arrangement parsed.now }
    requires room { parsed.now.query.count * ((G.Graph.graph graph.now).nodes * words_of (G.Graph.graph graph.now).nodes) + ((G.Graph.graph graph.now).nodes + (G.Graph.graph graph.now).nodes) ≤ length words.old }
    ensures { (xs : List ℕ) → (a : Accepted xs parsed.now) → Filled (G.Graph.graph graph.now) (meaning a.head a.atoms) words.old words.new }
{
    let n = graph.node_count() as usize;
    fill_each(graph, &parsed.query, words);
    let pairs = ends(&parsed.query.atoms);
    reduce_all(
        words,
        &pairs[..parsed.query.count],
        &parsed.order,
        Rows::of(n),
    );
}
