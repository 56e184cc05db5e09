// Filling tables many times over one graph.
ghost use Rattle.std.specs.Prelude.{◌+◌, ◌*◌, ◌≤◌, length};
ghost use Rattle.bits.specs.Rows.{width as words_of};

use super::counted::Counted;
use automata::Automaton;
use bits::width;
use graph::{Graph, apply};
use std::cell::Cell;
use std::io;
use std::time::{Duration, Instant};
use walk::fill_table;
use wiring::{Reader, Record};

// Makes the changes of the records to come, and passes over those that are refused.
pub fn load<G: Graph>(reader: &mut Reader, graph: &mut G) {
    for _ in 0..60_000 {
        match reader.next() {
            Ok(Some(Record::Change(change))) => {
                let _ = apply(graph, change);
            }
            Ok(Some(_)) => {}
            _ => break,
        }
    }
}

// What filling a table gave and took.
#[derive(Clone, Copy)]
pub struct Effort {
    pub pairs: u64,
    pub questions: u64,
}

// The number of words that one table and its scratch take.
pub fn needed<G: Graph>(graph: &G) -> usize
    ensures { (G.Graph.graph graph.now).nodes * words_of (G.Graph.graph graph.now).nodes + ((G.Graph.graph graph.now).nodes + (G.Graph.graph graph.now).nodes) ≤ result }
{
    let n = graph.node_count() as usize;
    n * width(n) + (n + n)
}

// Fills the table once and counts; none where the words do not suffice.
pub fn count<G: Graph>(graph: G, automaton: &Automaton, words: &mut [u64]) -> (G, Option<Effort>) {
    let n = graph.node_count() as usize;
    if words.len() < needed(&graph) {
        return (graph, None);
    }
    let counted = Counted {
        graph,
        asked: Cell::new(0),
    };
    let size = n * width(n);
    fill_table(&counted, automaton, words, 0, size);
    let mut pairs: u64 = 0;
    for word in &words[..size] {
        pairs = pairs.saturating_add(u64::from(word.count_ones()));
    }
    let Counted { graph, asked } = counted;
    let effort = Effort {
        pairs,
        questions: asked.get(),
    };
    (graph, Some(effort))
}

// The time that filling the table takes, over so many times; none where the words do not suffice.
pub fn time<G: Graph>(
    rt: &HostRuntime,
    graph: &G,
    automaton: &Automaton,
    words: &mut [u64],
    times: u32,
) -> io::Result<Option<Duration>> {
    let n = graph.node_count() as usize;
    if times == 0 || words.len() < needed(graph) {
        return Ok(None);
    }
    let size = n * width(n);
    let start = Instant::now(rt)?;
    for _ in 0..times {
        fill_table(graph, automaton, words, 0, size);
    }
    Ok(Some(start.elapsed(rt)? / times))
}
