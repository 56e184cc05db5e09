ghost use Rattle.std.specs.Prelude.{◌≡◌, ◌≤◌, length, OnOk};
ghost use Rattle.meaning.specs.Tuples.{Lowest, last_of, noted_of};
ghost use Rattle.bits.specs.Rows.{width as words_of};
ghost use Rattle.record.specs.Calls.{Calibrates, Fitting, Nexts, head};
ghost use Rattle.record.specs.Listing.{Begins, GoesOn};
ghost use Rattle.record.specs.Records.{Newly, new_text};
ghost use Rattle.record.specs.Calls.{needed as words-needed};

use super::records::{Blank, Listing, Opened, Query};
use bits::{Rows, width};
use engine::fill_tables;
use graph::Graph;
use meaning::NodeId;
use parse::ends;
use search::{Tables, find_places, lowest};

// Why calibrate or next is refused.
#[derive(Clone, Copy, Debug, PartialEq, Eq)]
pub enum Fault {
    // The workspace is shorter than the query's atoms and the graph's nodes need.
    ShortWorkspace,
    // The answer list is shorter than the head.
    ShortAnswer,
}

// The words of the workspace that m atoms over n nodes need.
fn needed(m: usize, n: usize) -> usize
    requires few { (m ≤ 8) × (n ≤ 1024) }
    ensures { result ≡ words-needed m n }
{
    m * (n * width(n)) + (n + n)
}

// Writes the tables of an opened query over a graph, and notes the graph's nodes and no last tuple.
fn prepare<G: Graph>(
    state: Opened,
    query: &mut Query,
    graph: &G,
    words: &mut [u64],
) -> Result<Listing, (Opened, Fault)>
    ensures { Calibrates (G.Graph.graph graph.now) query.old words.old result query.new words.new }
{
    let nodes = graph.node_count();
    if words.len() < needed(query.parsed.query.count, nodes as usize) {
        return Err((state, Fault::ShortWorkspace));
    }
    fill_tables(graph, &query.parsed, words);
    let Opened(_) = state;
    query.last = None;
    query.nodes = nodes;
    Ok(Listing(()))
}

// The lowest tuple that fits the workspace, above the last one that the record notes.
fn lowest_fitting(query: &Query, words: &[u64]) -> Option<[NodeId; 26]>
    requires room { words-needed query.now.parsed.query.count query.now.nodes ≤ length words.now }
    ensures { Lowest (Fitting query.now words.now) (length (head query.now)) (noted_of query.now.last) (last_of query.now.last) result }
{
    let h = query.parsed.query.head.count;
    let m = query.parsed.query.count;
    let pairs = ends(&query.parsed.query.atoms);
    let names = query.parsed.query.head.names;
    let places = find_places(&names[..h], &pairs[..m]);
    let tables = Tables {
        words,
        places: &places,
        rows: Rows::of(query.nodes as usize),
    };
    lowest(&tables, query.last)
}

// Writes the lowest tuple that fits the workspace above the last one, and notes it; or answers false, and writes nothing.
// It answers a bool, since the answer itself is the memory that the caller lends.
fn advance(query: &mut Query, words: &[u64], answer: &mut [NodeId]) -> Result<bool, Fault>
    ensures { Nexts query.old words.now answer.old result query.new answer.new }
{
    let h = query.parsed.query.head.count;
    if words.len() < needed(query.parsed.query.count, query.nodes as usize) {
        return Err(Fault::ShortWorkspace);
    }
    if answer.len() < h {
        return Err(Fault::ShortAnswer);
    }
    match lowest_fitting(query, words) {
        None => Ok(false),
        Some(tuple) => {
            answer[..h].copy_from_slice(&tuple[..h]);
            query.last = Some(tuple);
            Ok(true)
        }
    }
}

// Begins a listing of an opened query over a graph: each table of the workspace then keeps exactly the pairs that satisfying assignments use.
pub(crate) fn calibrate<G: Graph>(
    state: Opened,
    query: &mut Query,
    graph: &G,
    words: &mut [u64],
) -> Result<Listing, (Opened, Fault)>
    ensures tables { Calibrates (G.Graph.graph graph.now) query.old words.old result query.new words.new }
    ensures begins { OnOk result (Begins (G.Graph.graph graph.now) query.new words.new) }
{
    prepare(state, query, graph, words)
}

// Gives the next answer of a listing, or answers false at its end. A bool, since the answer itself is the memory that the caller lends.
pub(crate) fn next(
    _state: &Listing,
    query: &mut Query,
    words: &[u64],
    answer: &mut [NodeId],
) -> Result<bool, Fault>
    ensures answer { Nexts query.old words.now answer.old result query.new answer.new }
    ensures listing { GoesOn query.old words.now result query.new }
{
    advance(query, words, answer)
}

// Makes a record what a new one is.
fn blank(query: &mut Query) -> Blank
    ensures { Newly new_text query.new }
{
    let (new, state) = Query::new();
    *query = new;
    state
}

impl Opened {
    // Closes an opened query: the record then holds what a new one holds.
    pub(crate) fn close(self, query: &mut Query) -> Blank
        ensures { Newly new_text query.new }
    {
        let Opened(_) = self;
        blank(query)
    }
}

impl Listing {
    // Closes a listing: the record then holds what a new one holds. Not one function with the other: each state can be let go by its own pattern alone.
    pub(crate) fn close(self, query: &mut Query) -> Blank
        ensures { Newly new_text query.new }
    {
        let Listing(_) = self;
        blank(query)
    }
}
