// Tables of path expressions on both kinds of graph, at the widths where a row gains a word.
use bits::{test, width};
use graph::{Edge, EdgeList, Graph, ListSizes, SmallTable, TableSizes};
use query::read_expression;
use std::process::Abort;
use std::test::Fail;
use walk::fill_table;

// The pairs that a result has, and whether it has each node with itself besides.
#[derive(Clone, Copy)]
struct Expected<'a> {
    pairs: &'a [(u16, u16)],
    // A fact about the result; the pairs say something with it and without it.
    loops: bool,
}

// One expression and its result.
#[derive(Clone, Copy)]
struct Case<'t, 'p> {
    text: &'t [u8],
    expected: Expected<'p>,
}

fn row<'t, 'p>(text: &'t [u8], pairs: &'p [(u16, u16)]) -> Case<'t, 'p> {
    Case {
        text,
        expected: Expected {
            pairs,
            loops: false,
        },
    }
}

fn reflexive<'t, 'p>(text: &'t [u8], pairs: &'p [(u16, u16)]) -> Case<'t, 'p> {
    Case {
        text,
        expected: Expected { pairs, loops: true },
    }
}

fn expects(expected: Expected, n: usize, u: usize, v: usize) -> bool {
    expected.loops && u == v && u < n
        || expected
            .pairs
            .iter()
            .any(|(a, b)| *a as usize == u && *b as usize == v)
}

// Fills the table of an expression in words that hold something else, and looks at every bit of it and at the words around it.
fn check_row<G: Graph>(rt: &impl Abort, graph: &G, row: Case) -> Result<(), Fail> {
    let n = graph.node_count() as usize;
    let w = width(n);
    let size = n * w;
    let Ok(automaton) = read_expression(row.text) else {
        return Err(Fail::new("expression"));
    };
    let mut words = [u64::MAX; 400];
    if size + (n + n) > 390 {
        return Err(Fail::new("too many nodes"));
    }
    let end = 1 + size + (n + n);
    fill_table(graph, &automaton, &mut words, 1, 1 + size);
    assert!(rt; words[0] == u64::MAX);
    assert!(rt; words[end] == u64::MAX);
    for word in &words[1 + size..end] {
        assert!(rt; *word == 0);
    }
    for u in 0..n {
        for v in 0..w * 64 {
            let i = 1 + u * w;
            assert!(rt; i + v / 64 < 400);
            assert!(rt; test(&words, i, v) == expects(row.expected, n, u, v));
        }
    }
    Ok(())
}

// As in the tests of the record, with which these share no crate of tests.
fn put_all<G: Graph>(graph: &mut G, edges: &[(u16, u8, u16)]) {
    for (from, label, to) in edges {
        let e = Edge {
            from: *from,
            label: *label,
            to: *to,
        };
        let _ = graph.put(e);
    }
}

fn check_rows<G: Graph>(rt: &impl Abort, graph: &G, rows: &[Case]) -> Result<(), Fail> {
    for row in rows {
        check_row(rt, graph, *row)?;
    }
    Ok(())
}

// The rows on an edge list, and on a small table where there is room for the nodes.
fn on_both(
    rt: &impl Abort,
    nodes: u16,
    labels: u16,
    edges: &[(u16, u8, u16)],
    rows: &[Case],
) -> Result<(), Fail> {
    let Ok(sizes) = ListSizes::new(nodes, labels) else {
        return Err(Fail::new("sizes"));
    };
    let mut memory = [Edge::default(); 16];
    let mut list = EdgeList::new(sizes, &mut memory);
    put_all(&mut list, edges);
    check_rows(rt, &list, rows)?;
    let Ok(sizes) = TableSizes::new(nodes, labels) else {
        return Ok(());
    };
    let mut table = SmallTable::new(sizes);
    put_all(&mut table, edges);
    check_rows(rt, &table, rows)
}

// A node without edges is joined to itself by the empty path alone.
#[test]
fn one_node(rt: HostRuntime) -> Result<(), Fail> {
    let rows = [
        reflexive(b"a*", &[]),
        row(b"a", &[]),
        row(b".", &[]),
        reflexive(b"z?", &[]),
    ];
    on_both(&rt, 1, 1, &[], &rows)?;
    on_both(
        &rt,
        1,
        1,
        &[(0, 0, 0)],
        &[row(b"a+", &[(0, 0)]), row(b"a/a/a", &[(0, 0)])],
    )
}

// The last node, the last bit of a row and the last label.
fn corners(rt: &impl Abort, nodes: u16) -> Result<(), Fail> {
    assert!(rt; nodes >= 2);
    let last = nodes - 1;
    let edges = [(last, 0, 0), (0, 1, last)];
    let all = [(0, 0), (0, last), (last, 0), (last, last)];
    let down = [(last, 0)];
    let up = [(0, last)];
    let both = [(last, 0), (0, last)];
    let high = [(last, last)];
    let low = [(0, 0)];
    let none: [(u16, u16); 0] = [];
    let rows = [
        row(b"a", &down),
        row(b"b", &up),
        row(b"a/b", &high),
        row(b"b/a", &low),
        row(b".", &both),
        row(b"(a|b)+", &all),
        reflexive(b".*", &all),
        row(b"c", &none),
        reflexive(b"c*", &none),
        row(b"z|a", &down),
    ];
    on_both(rt, nodes, 2, &edges, &rows)
}

#[test]
fn rows_of_one_word_and_of_two(rt: HostRuntime) -> Result<(), Fail> {
    corners(&rt, 63)?;
    corners(&rt, 64)?;
    corners(&rt, 65)
}

// Paths that come back to a node in another place of the expression.
#[test]
fn nodes_repeat_on_paths(rt: HostRuntime) -> Result<(), Fail> {
    let edges = [
        (0, 0, 1),
        (1, 0, 2),
        (2, 1, 3),
        (1, 1, 3),
        (3, 2, 0),
        (4, 0, 2),
    ];
    let rows = [
        row(b"a/b", &[(0, 3), (1, 3), (4, 3)]),
        row(b"a/b|c", &[(0, 3), (1, 3), (3, 0), (4, 3)]),
        reflexive(b"a*", &[(0, 1), (0, 2), (1, 2), (4, 2)]),
        row(b"a/b/c/a", &[(0, 1), (1, 1), (4, 1)]),
        row(b"(a/a?/b/c)+/a/a/b", &[(0, 3), (1, 3), (4, 3)]),
    ];
    on_both(&rt, 5, 3, &edges, &rows)
}
