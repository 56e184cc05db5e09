// Query texts with all of their checks: refusals with their number and place, and the order of the atoms.
use parse::parse;
use std::test::*;

// Nothing for a text that is accepted, else the number of the refusal and its place.
fn answer(text: &[u8]) -> Result<(), (u8, usize)> {
    match parse(text) {
        Ok(_) => Ok(()),
        Err(refusal) => Err((refusal.number(), refusal.place())),
    }
}

#[test]
fn accepted(rt: HostRuntime) -> Result<(), Fail> {
    assert_eq!(rt; answer(b"A:A[.]B"), Ok(()));
    assert_eq!(rt; answer(b"AB:A[p/r*/k]B,B[c+]C"), Ok(()));
    assert_eq!(rt;
        answer(b"A:A[]B,B[]C,C[]D,D[]E,E[]F,F[]G,G[]H,H[]I"),
        Ok(())
    );
    assert_eq!(rt;
        answer(
            b"A:A[a/a/a/a/a/a/a/a/a/a/a/a/a/a/a/a/a/a/a/a/a/a/a/a/a/a/a/a/a/a/a/a/a/a/a/a/a/a/a/a/a/a/a/a/a/a/a/a/a/a/a/a/a/a/a/a/a/a/a/a/a/a/a]B",
        ),
        Ok(())
    );
    Ok(())
}

#[test]
fn deep_brackets(rt: HostRuntime) -> Result<(), Fail> {
    assert_eq!(rt;
        answer(
            b"A:A[((((((((((((((((((((((((((((((((((((((((((((((((((((((((((((((((((((((((((((((((((((((((((((((((((((((((((((((((((((((((((((((((((((((((((((((((((((((((((((((((((((((((((((((((((((((((((((((((((((((((((((((((((((((((((((((((((((((((((((((((((((((((((((a))))))))))))))))))))))))))))))))))))))))))))))))))))))))))))))))))))))))))))))))))))))))))))))))))))))))))))))))))))))))))))))))))))))))))))))))))))))))))))))))))))))))))))))))))))))))))))))))))))))))))))))))))))))))))))))))))))))))))))))))))))))))))))]B",
        ),
        Ok(())
    );
    assert_eq!(rt;
        answer(
            b"A:A[((((((((((((((((((((((((((((((((((((((((((((((((((((((((((((((((((((((((((((((((((((((((((((((((((((((((((((((((((((((((((((((((((((((((((((((((((((((((((((((((((((((((((((((((((((((((((((((((((((((((((((((((((((((((((((((((((((((((((((((((((((((((((((a)))))))))))))))))))))))))))))))))))))))))))))))))))))))))))))))))))))))))))))))))))))))))))))))))))))))))))))))))))))))))))))))))))))))))))))))))))))))))))))))))))))))))))))))))))))))))))))))))))))))))))))))))))))))))))))))))))))))))))))))))))))))))))]B",
        ),
        Err((5, 508))
    );
    Ok(())
}

#[test]
fn text_refused(rt: HostRuntime) -> Result<(), Fail> {
    assert_eq!(rt; answer(&[65; 513]), Err((4, 512)));
    assert_eq!(rt; answer(&[65; 512]), Err((5, 512)));
    assert_eq!(rt; answer(b""), Err((5, 0)));
    assert_eq!(rt; answer(b"A:A[|a]B"), Err((5, 4)));
    assert_eq!(rt; answer(&[b'A', b':', 200]), Err((5, 2)));
    assert_eq!(rt;
        answer(b"A:A[]B,B[]C,C[]D,D[]E,E[]F,F[]G,G[]H,H[]I,I[]J"),
        Err((6, 42))
    );
    assert_eq!(rt;
        answer(
            b"A:A[a/a/a/a/a/a/a/a/a/a/a/a/a/a/a/a/a/a/a/a/a/a/a/a/a/a/a/a/a/a/a/a/a/a/a/a/a/a/a/a/a/a/a/a/a/a/a/a/a/a/a/a/a/a/a/a/a/a/a/a/a/a/a/a]B",
        ),
        Err((6, 130))
    );
    Ok(())
}

#[test]
fn shape_refused(rt: HostRuntime) -> Result<(), Fail> {
    assert_eq!(rt; answer(b"AA:A[a]B"), Err((7, 1)));
    assert_eq!(rt; answer(b"C:A[a]B"), Err((8, 0)));
    assert_eq!(rt; answer(b"A:A[a]A"), Err((9, 2)));
    assert_eq!(rt; answer(b"A:A[a]B,B[b]A"), Err((9, 8)));
    assert_eq!(rt; answer(b"A:A[a]B,C[a]D"), Err((10, 8)));
    assert_eq!(rt; answer(b"AC:A[a]B,B[a]C"), Err((11, 1)));
    Ok(())
}

#[test]
fn order_of_atoms(rt: HostRuntime) -> Result<(), Fail> {
    let Ok(parsed) = parse(b"C:A[a]B,C[b]D,B[c]C") else {
        assert!(rt; false);
        return Ok(());
    };
    let order = parsed.order;
    assert_eq!(rt; order.steps[0].atom, 1);
    assert_eq!(rt; order.steps[1].atom, 2);
    assert_eq!(rt; order.steps[2].atom, 0);
    assert_eq!(rt; order.steps[1].parent, 0);
    assert_eq!(rt; order.steps[2].parent, 1);
    assert_eq!(rt; order.steps[2].shared, b'B');
    assert_eq!(rt; order.steps[2].fresh, b'A');
    Ok(())
}
