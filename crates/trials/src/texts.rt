// Query texts: what is accepted, and where a text goes wrong or is over a limit.
use query::{Fault, read_query};
use std::test::*;

// The number of atoms of a query, or why it is refused.
fn answer(text: &[u8]) -> Result<usize, Fault> {
    read_query(text).map(|query| query.count)
}

#[test]
fn accepted_texts(rt: HostRuntime) -> Result<(), Fail> {
    assert_eq!(rt; answer(b"XY:X[a/b]Y"), Ok(1));
    assert_eq!(rt; answer(b"XY:X[a/b|c]Y,Y[(a|.)*?+]Z"), Ok(2));
    assert_eq!(rt; answer(b"X:X[]Y"), Ok(1));
    assert_eq!(rt; answer(b"AZ:A[z]Z"), Ok(1));
    Ok(())
}

#[test]
fn places_of_bad_signs(rt: HostRuntime) -> Result<(), Fail> {
    assert_eq!(rt; answer(b""), Err(Fault::NoQuery(0)));
    assert_eq!(rt; answer(b"a:A[a]B"), Err(Fault::NoQuery(0)));
    assert_eq!(rt; answer(b"A:A[|a]B"), Err(Fault::NoQuery(4)));
    assert_eq!(rt; answer(b"A:A[a"), Err(Fault::NoQuery(5)));
    assert_eq!(rt; answer(b"A:A[a]"), Err(Fault::NoQuery(6)));
    assert_eq!(rt; answer(b"A:A[(a]B"), Err(Fault::NoQuery(6)));
    assert_eq!(rt; answer(b"A:A[a)]B"), Err(Fault::NoQuery(5)));
    assert_eq!(rt; answer(b"A:A[]B]"), Err(Fault::NoQuery(6)));
    assert_eq!(rt; answer(b"A:A[]B,"), Err(Fault::NoQuery(7)));
    assert_eq!(rt; answer(b"A,"), Err(Fault::NoQuery(1)));
    Ok(())
}

#[test]
fn places_of_limits(rt: HostRuntime) -> Result<(), Fail> {
    assert_eq!(rt; answer(b"A:A[]B,A[]B,A[]B,A[]B,A[]B,A[]B,A[]B,A[]B"), Ok(8));
    assert_eq!(rt;
        answer(b"A:A[]B,A[]B,A[]B,A[]B,A[]B,A[]B,A[]B,A[]B,A[]B"),
        Err(Fault::TooLarge(42))
    );
    assert_eq!(rt;
        answer(
            b"A:A[a/a/a/a/a/a/a/a/a/a/a/a/a/a/a/a/a/a/a/a/a/a/a/a/a/a/a/a/a/a/a/a/a/a/a/a/a/a/a/a/a/a/a/a/a/a/a/a/a/a/a/a/a/a/a/a/a/a/a/a/a/a/a]B",
        ),
        Ok(1)
    );
    assert_eq!(rt;
        answer(
            b"A:A[a/a/a/a/a/a/a/a/a/a/a/a/a/a/a/a/a/a/a/a/a/a/a/a/a/a/a/a/a/a/a/a/a/a/a/a/a/a/a/a/a/a/a/a/a/a/a/a/a/a/a/a/a/a/a/a/a/a/a/a/a/a/a/a]B",
        ),
        Err(Fault::TooLarge(130))
    );
    assert_eq!(rt;
        answer(
            b"A:A[a/a/a/a/a/a/a/a/a/a/a/a/a/a/a/a/a/a/a/a/a/a/a/a/a/a/a/a/a/a/a/a/a/a/a/a/a/a/a/a/a/a/a/a/a/a/a/a/a/a/a/a/a/a/a/a/a/a/a/a/a/a/a/a]B,",
        ),
        Err(Fault::NoQuery(134))
    );
    Ok(())
}

#[test]
fn variables_and_atoms(rt: HostRuntime) -> Result<(), Fail> {
    let Ok(query) = read_query(b"XY:X[a/b]Y,Y[]Z") else {
        assert!(rt; false);
        return Ok(());
    };
    assert_eq!(rt; query.head.count, 2);
    assert_eq!(rt; query.head.names[0], b'X');
    assert_eq!(rt; query.head.names[1], b'Y');
    assert_eq!(rt; query.atoms[0].first, b'X');
    assert_eq!(rt; query.atoms[0].second, b'Y');
    assert_eq!(rt; query.atoms[0].automaton.size, 2);
    assert_eq!(rt; query.atoms[1].first, b'Y');
    assert_eq!(rt; query.atoms[1].second, b'Z');
    assert_eq!(rt; query.atoms[1].automaton.size, 1);
    Ok(())
}
