// Path expressions: where a text goes wrong, and which words an automaton accepts.
use automata::{Automaton, Symbol};
use bits::{has, marked};
use query::read_expression;
use std::test::*;

// The number of positions of an expression, or the place where it goes wrong.
fn answer(text: &[u8]) -> Result<usize, usize> {
    read_expression(text).map(|automaton| automaton.size)
}

#[test]
fn texts_and_places(rt: HostRuntime) -> Result<(), Fail> {
    assert_eq!(rt; answer(b"a"), Ok(1));
    assert_eq!(rt; answer(b"p/r*/k"), Ok(3));
    assert_eq!(rt; answer(b"(a|b/c)*+?"), Ok(3));
    assert_eq!(rt; answer(b"."), Ok(1));
    assert_eq!(rt; answer(b""), Err(0));
    assert_eq!(rt; answer(b"|a"), Err(0));
    assert_eq!(rt; answer(b"a|"), Err(2));
    assert_eq!(rt; answer(b"a//b"), Err(2));
    assert_eq!(rt; answer(b"(a"), Err(2));
    assert_eq!(rt; answer(b"a)"), Err(1));
    assert_eq!(rt; answer(b"()"), Err(1));
    assert_eq!(rt; answer(b"a*b"), Err(2));
    assert_eq!(rt; answer(b"A"), Err(0));
    Ok(())
}

fn reads(symbol: Symbol, labels: u8, label: u8) -> bool {
    match symbol {
        Symbol::Label(a) => a == label,
        Symbol::Any => label < labels,
    }
}

fn step(automaton: &Automaton, labels: u8, states: u64, label: u8) -> u64 {
    let mut next = 0;
    for (p, follow) in automaton.follow.iter().enumerate() {
        for (q, symbol) in automaton.symbols.iter().enumerate() {
            if has(states, p) && has(*follow, q) && reads(*symbol, labels, label) {
                next = marked(next, q);
            }
        }
    }
    next
}

// Whether an expression has a word, over three labels.
fn has_word(text: &[u8], word: &[u8]) -> bool {
    let Ok(automaton) = read_expression(text) else {
        return false;
    };
    let mut states = 1;
    for label in word {
        states = step(&automaton, 3, states, *label);
    }
    states & automaton.accept != 0
}

#[test]
fn words_of_expressions(rt: HostRuntime) -> Result<(), Fail> {
    assert!(rt; has_word(b"a*", &[]));
    assert!(rt; has_word(b"a*", &[0, 0, 0]));
    assert!(rt; !has_word(b"a*", &[0, 1]));
    assert!(rt; !has_word(b"a+", &[]));
    assert!(rt; has_word(b"a/b|c", &[2]));
    assert!(rt; has_word(b"a/b|c", &[0, 1]));
    assert!(rt; !has_word(b"a/b|c", &[0, 2]));
    assert!(rt; has_word(b"a/(b|c)", &[0, 2]));
    assert!(rt; has_word(b"(a/b?)+", &[0, 0, 1, 0]));
    assert!(rt; has_word(b".", &[2]));
    assert!(rt; !has_word(b".", &[3]));
    assert!(rt; has_word(b"z", &[25]));
    Ok(())
}

const A63: &[u8] =
    b"a/a/a/a/a/a/a/a/a/a/a/a/a/a/a/a/a/a/a/a/a/a/a/a/a/a/a/a/a/a/a/a/a/a/a/a/a/a/a/a/a/a/a/a/a/a/a/a/a/a/a/a/a/a/a/a/a/a/a/a/a/a/a";

#[test]
fn sixty_three_positions(rt: HostRuntime) -> Result<(), Fail> {
    assert_eq!(rt; answer(A63), Ok(63));
    assert!(rt; has_word(A63, &[0; 63]));
    assert!(rt; !has_word(A63, &[0; 62]));
    Ok(())
}
