// The shape of a query: each refusal with the place or the atom that it is about.
use shapes::{Ends, Fault, check_shape};
use std::test::*;

const AB: Ends = Ends {
    first: b'A',
    second: b'B',
};

const BA: Ends = Ends {
    first: b'B',
    second: b'A',
};

const BC: Ends = Ends {
    first: b'B',
    second: b'C',
};

const CD: Ends = Ends {
    first: b'C',
    second: b'D',
};

const AA: Ends = Ends {
    first: b'A',
    second: b'A',
};

const CA: Ends = Ends {
    first: b'C',
    second: b'A',
};

#[test]
fn shapes_and_places(rt: HostRuntime) -> Result<(), Fail> {
    assert_eq!(rt; check_shape(b"A", &[AB]), Ok(()));
    assert_eq!(rt; check_shape(b"AB", &[AB, BC]), Ok(()));
    assert_eq!(rt; check_shape(b"BA", &[AB, BC, CD]), Ok(()));
    assert_eq!(rt; check_shape(b"AA", &[AB]), Err(Fault::RepeatedVariable(1)));
    assert_eq!(rt; check_shape(b"C", &[AB]), Err(Fault::UnusedVariable(0)));
    assert_eq!(rt; check_shape(b"AC", &[AB]), Err(Fault::UnusedVariable(1)));
    assert_eq!(rt; check_shape(b"A", &[AB, BA]), Err(Fault::CyclicAtom(1)));
    assert_eq!(rt; check_shape(b"A", &[AA]), Err(Fault::CyclicAtom(0)));
    assert_eq!(rt; check_shape(b"A", &[AB, BC, CA]), Err(Fault::CyclicAtom(2)));
    assert_eq!(rt;
        check_shape(b"A", &[AB, CD]),
        Err(Fault::UnconnectedAtom(1))
    );
    // connected by a later atom
    assert_eq!(rt; check_shape(b"A", &[AB, CD, BC]), Ok(()));
    assert_eq!(rt; check_shape(b"AC", &[AB, BC]), Err(Fault::LoneVariable(1)));
    Ok(())
}

#[test]
fn the_first_number_counts(rt: HostRuntime) -> Result<(), Fail> {
    // repeated before unused, unused before cyclic, cyclic before unconnected, unconnected before alone
    assert_eq!(rt; check_shape(b"AAC", &[AB]), Err(Fault::RepeatedVariable(1)));
    assert_eq!(rt; check_shape(b"D", &[AB, BA]), Err(Fault::UnusedVariable(0)));
    assert_eq!(rt; check_shape(b"A", &[AB, CD, BA]), Err(Fault::CyclicAtom(2)));
    assert_eq!(rt;
        check_shape(b"AC", &[AB, CD]),
        Err(Fault::UnconnectedAtom(1))
    );
    Ok(())
}
