ghost use Rattle.meaning.specs.Words.{Regex};
ghost use Rattle.automata.specs.Machines.{Recognizes};
ghost use Rattle.automata.specs.Parts.{Holds};

use super::builder::{Builder, Part};
use super::symbols::Symbol;

// A position automaton: state 0 is the start, and state p the position p, which is entered by its symbol.
// Arrays, since the engine has no heap; two, since the start state has no symbol.
#[derive(Clone, Copy)]
pub struct Automaton {
    pub symbols: [Symbol; 64],
    // The states to which each state leads.
    pub follow: [u64; 64],
    // The states that accept.
    pub accept: u64,
    // The number of positions; past 63 they are only counted.
    pub size: usize,
}

// The automaton of the expression whose positions and whole part are given.
pub fn finish(builder: Builder, whole: Part) -> Automaton
    ensures { (x : Regex) → Holds builder whole 1 x → Recognizes result x }
{
    let mut follow = builder.follow;
    follow[0] = whole.first;
    Automaton {
        symbols: builder.symbols,
        follow,
        accept: if whole.nullable {
            whole.last | 1
        } else {
            whole.last
        },
        size: builder.count.saturating_sub(1),
    }
}
