// Here, since no other crate can let a state go, and since calibrate, next and close are not exported yet.
use super::calls::{Fault, calibrate, next};
use super::opening::open;
use super::records::{Blank, Listing, Opened, Query};
use graph::{Edge, EdgeList, Graph, ListSizes};
use meaning::NodeId;
use std::process::Abort;
use std::test::Fail;

// The number of atoms that the record has after open, or the number of the refusal and its place.
fn answer(text: &[u8]) -> Result<usize, (u8, usize)> {
    let (mut query, state) = Query::new();
    match open(state, &mut query, text) {
        Ok(Opened(_)) => Ok(query.parsed.query.count),
        Err((Blank(_), refusal)) => Err((refusal.number(), refusal.place())),
    }
}

#[test]
fn new_record(rt: HostRuntime) {
    let (query, Blank(_)) = Query::new();
    assert_eq!(rt; query.parsed.query.count, 1);
    let first = query.parsed.query.head.names[0];
    assert_eq!(rt; first, b'A');
    let second = query.parsed.query.atoms[0].second;
    assert_eq!(rt; second, b'B');
}

#[test]
fn opened_or_refused(rt: HostRuntime) {
    assert_eq!(rt; answer(b"AB:A[p/r*/k]B,B[c+]C"), Ok(2));
    assert_eq!(rt; answer(b""), Err((5, 0)));
    assert_eq!(rt; answer(b"AC:A[a]B,B[a]C"), Err((11, 1)));
}

// As in the tests of paths, with which these share no crate of tests.
fn put_all<G: Graph>(graph: &mut G, edges: &[(u16, u8, u16)]) {
    for (from, label, to) in edges {
        let e = Edge {
            from: *from,
            label: *label,
            to: *to,
        };
        let _ = graph.put(e);
    }
}

// An answer list, as the calls leave it.
type Answer = [NodeId; 4];

// How many answers the calls gave of a query over the graph of five nodes, or why calibrate was refused.
fn listed(
    text: &[u8],
    words: &mut [u64],
    out: &mut [Answer],
) -> Result<Result<usize, Fault>, Fail> {
    let Ok(sizes) = ListSizes::new(5, 3) else {
        return Err(Fail::new("sizes"));
    };
    let mut memory = [Edge::default(); 8];
    let mut list = EdgeList::new(sizes, &mut memory);
    put_all(
        &mut list,
        &[
            (0, 0, 1),
            (1, 0, 2),
            (2, 1, 3),
            (1, 1, 3),
            (3, 2, 0),
            (4, 0, 2),
        ],
    );
    let (mut query, blank) = Query::new();
    let opened = match open(blank, &mut query, text) {
        Ok(opened) => opened,
        Err((Blank(_), _)) => return Err(Fail::new("refused")),
    };
    match calibrate(opened, &mut query, &list, words) {
        Ok(listing) => {
            let given = drain(&listing, &mut query, words, out);
            let Blank(_) = listing.close(&mut query);
            Ok(Ok(given?))
        }
        Err((opened, fault)) => {
            let Blank(_) = opened.close(&mut query);
            Ok(Err(fault))
        }
    }
}

// Calls next until it answers the end, and counts the answers.
fn drain(
    listing: &Listing,
    query: &mut Query,
    words: &[u64],
    out: &mut [Answer],
) -> Result<usize, Fail> {
    for (i, answer) in out.iter_mut().enumerate() {
        match next(listing, query, words, answer) {
            Ok(true) => {}
            Ok(false) => return Ok(i),
            Err(_) => return Err(Fail::new("next")),
        }
    }
    Err(Fail::new("too many"))
}

fn check_list(rt: &impl Abort, text: &[u8], expected: &[Answer]) -> Result<(), Fail> {
    let mut words = [u64::MAX; 60];
    let mut out = [[7; 4]; 20];
    let given = listed(text, &mut words, &mut out)?;
    assert_eq!(rt; given, Ok(expected.len()));
    assert!(rt; expected.len() <= 20);
    assert!(rt; &out[..expected.len()] == expected);
    Ok(())
}

// The answer list stays 7 past the head.
#[test]
fn listings(rt: HostRuntime) -> Result<(), Fail> {
    check_list(
        &rt,
        b"XY:X[a/b]Y",
        &[[0, 3, 7, 7], [1, 3, 7, 7], [4, 3, 7, 7]],
    )?;
    check_list(
        &rt,
        b"XY:X[a/b|c]Y",
        &[[0, 3, 7, 7], [1, 3, 7, 7], [3, 0, 7, 7], [4, 3, 7, 7]],
    )?;
    check_list(
        &rt,
        b"XY:X[a*]Y",
        &[
            [0, 0, 7, 7],
            [0, 1, 7, 7],
            [0, 2, 7, 7],
            [1, 1, 7, 7],
            [1, 2, 7, 7],
            [2, 2, 7, 7],
            [3, 3, 7, 7],
            [4, 2, 7, 7],
            [4, 4, 7, 7],
        ],
    )?;
    check_list(
        &rt,
        b"YX:X[a]Y,Y[b]Z",
        &[[1, 0, 7, 7], [2, 1, 7, 7], [2, 4, 7, 7]],
    )?;
    check_list(&rt, b"X:X[a]Y,Y[a]Z", &[[0, 7, 7, 7]])?;
    check_list(&rt, b"XY:X[a]Y,Y[c]Z", &[])
}

// Two atoms over five nodes take 20 words: 2 × 5 × 1 of tables and 2 × 5 of scratch.
#[test]
fn workspaces(rt: HostRuntime) -> Result<(), Fail> {
    let mut out = [[7; 4]; 4];
    let mut short = [u64::MAX; 19];
    assert_eq!(rt;
        listed(b"X:X[a]Y,Y[a]Z", &mut short, &mut out)?,
        Err(Fault::ShortWorkspace)
    );
    assert_eq!(rt; short[0], u64::MAX);
    let mut words = [u64::MAX; 20];
    let mut given = [[7; 4]; 4];
    assert_eq!(rt; listed(b"X:X[a]Y,Y[a]Z", &mut words, &mut given)?, Ok(1));
    assert_eq!(rt; words[0], 2);
    assert_eq!(rt; words[6], 4);
    assert_eq!(rt; words[10], 0);
    Ok(())
}
