// Fills the table of one expression over the graph of a wiring file on standard input, and says how many pairs it has and how many follow questions it
// took, for each kind of graph that has room for the nodes. With a second argument, a number of repetitions, it also says how long one takes.
#![tactic(auto)]

mod counted;
mod filling;

use automata::Automaton;
use filling::{count, load, needed, time};
use graph::{Edge, EdgeList, Graph, ListSizes, SmallTable, TableSizes};
use query::read_expression;
use std::io::Read;
use std::{env, io};
use wiring::{Reader, Record};

fn main(rt: HostRuntime) -> io::Result<()> {
    let heap = rt.alloc();
    let mut bytes = Vec::new(heap);
    rt.stdin().take(60_000).read_to_end(&mut bytes)?;
    let mut args = env::args(&rt)?.skip(1);
    let Some(text) = args.next() else {
        return println!(rt; "usage: bench EXPRESSION [REPETITIONS] < FILE");
    };
    let times: Option<u32> = match args.next() {
        Some(word) => word.parse().ok(),
        None => None,
    };
    match read_expression(text.as_bytes()) {
        Ok(automaton) => run(rt, bytes.as_slice(), &automaton, times),
        Err(place) => println!(rt; "no expression: it goes wrong at {place}"),
    }
}

// Runs on each kind of graph that has room for the file's nodes.
fn run(rt: HostRuntime, bytes: &[u8], automaton: &Automaton, times: Option<u32>) -> io::Result<()> {
    let heap = rt.alloc();
    let mut reader = Reader::new(bytes);
    let Ok(Some(Record::Sizes(nodes, labels))) = reader.next() else {
        return println!(rt; "the file does not begin with its sizes");
    };
    let Ok(sizes) = ListSizes::new(nodes, labels) else {
        return println!(rt; "the sizes are out of range");
    };
    let mut memory = vec![in heap; Edge::default(); 4096]?;
    let mut list = EdgeList::new(sizes, memory.as_mut_slice());
    load(&mut reader, &mut list);
    report(rt, "edge list", list, automaton, times)?;
    let Ok(sizes) = TableSizes::new(nodes, labels) else {
        return Ok(());
    };
    let mut reader = Reader::new(bytes);
    let _ = reader.next();
    let mut table = SmallTable::new(sizes);
    load(&mut reader, &mut table);
    report(rt, "small table", table, automaton, times)
}

// Fills the table and prints what that gave and took.
fn report<G: Graph + Drop>(
    rt: HostRuntime,
    kind: &str,
    graph: G,
    automaton: &Automaton,
    times: Option<u32>,
) -> io::Result<()> {
    let mut words = vec![in rt.alloc(); 0; needed(&graph)]?;
    let (graph, effort) = count(graph, automaton, words.as_mut_slice());
    if let Some(effort) = effort {
        println!(rt;
            "{kind}: {} pairs, {} follow questions",
            effort.pairs, effort.questions
        )?;
    }
    let Some(times) = times else {
        return Ok(());
    };
    match time(&rt, &graph, automaton, words.as_mut_slice(), times)? {
        Some(spent) => println!(rt; "{kind}: {} ns a table", spent.as_nanos()),
        None => Ok(()),
    }
}
