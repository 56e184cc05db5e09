ghost use Rattle.std.specs.Prelude.{◌≡◌, ℕ, ◌+◌, ◌^◌, ◌<◌, List, [], ◌∷◌, ◌++◌, MatchOption, slice_index_or};
ghost use Rattle.automata.specs.Parts.{Holds};
ghost use Rattle.query.specs.Limits.{Keeps, Stored, first_of, inside_of, second_of};
ghost use Rattle.query.specs.Queries.{AtomTree, inside_regex};
ghost use Rattle.query.specs.Faults.{fault_number, fault_place};

use automata::{Automaton, Builder, Part, Symbol, finish};

// An atom: its two variables, the place of its first byte in the text, and the automaton of its expression.
#[derive(Clone, Copy)]
pub struct Atom {
    pub first: u8,
    pub second: u8,
    pub place: usize,
    pub automaton: Automaton,
}

// The variables of a head: all are counted, and the first 26 are kept. An array, since the engine has no heap.
#[derive(Clone, Copy)]
pub struct Head {
    pub names: [u8; 26],
    pub count: usize,
}

// A query as it is read: all atoms are counted, and the first eight are kept. An array, since the engine has no heap.
#[derive(Clone, Copy)]
pub struct Draft {
    pub(crate) head: Head,
    pub(crate) atoms: [Atom; 8],
    pub(crate) count: usize,
    // The first place where the text is over a limit.
    pub(crate) over: Option<usize>,
}

// A query within the limits. An array, since the engine has no heap.
#[derive(Clone, Copy)]
pub struct Query {
    pub head: Head,
    pub atoms: [Atom; 8],
    pub count: usize,
}

// Why a text is refused, and its place.
#[derive(Clone, Copy, Debug, PartialEq, Eq)]
pub enum Fault {
    // The text is no query: the length of its longest beginning that begins one.
    NoQuery(usize),
    // The ninth atom, or the 64th letter or dot of an expression, whichever stands first.
    TooLarge(usize),
}

impl Fault {
    // The refusal number. A method, since the numbers are published ones and `u8::from` would not say what the number is.
    pub fn number(self) -> u8
        ensures { result ≡ fault_number self }
    {
        match self {
            Fault::NoQuery(_) => 5,
            Fault::TooLarge(_) => 6,
        }
    }

    // Where in the text it shows.
    pub fn place(self) -> usize
        ensures { result ≡ fault_place self }
    {
        match self {
            Fault::NoQuery(place) | Fault::TooLarge(place) => place,
        }
    }
}

impl Head {
    // One variable more; past 26 it is only counted.
    pub(crate) fn push(&mut self, name: u8)
        requires { self.old.count < 2 ^ 63 }
        ensures { (ns : List ℕ) → Keeps self.old ns → Keeps self.new (ns ++ name ∷ []) }
    {
        if self.count < 26 {
            self.names[self.count] = name;
        }
        self.count += 1;
    }
}

impl Draft {
    // One atom more, and the place of the first limit that was passed.
    pub(crate) fn push(&mut self, atom: Atom, over: Option<usize>)
        requires { self.old.count < 2 ^ 63 }
        ensures head { self.new.head ≡ self.old.head }
        ensures count { self.new.count ≡ self.old.count + 1 }
        ensures kept { (z : Atom) (i : ℕ) → i < self.old.count → slice_index_or self.new.atoms i z ≡ slice_index_or self.old.atoms i z }
        ensures put { (z : Atom) → self.old.count < 8 → slice_index_or self.new.atoms self.old.count z ≡ atom }
        ensures over { MatchOption self.old.over (self.new.over ≡ over) (λ p. self.new.over ≡ self.old.over) }
    {
        if self.count < 8 {
            self.atoms[self.count] = atom;
        }
        self.count += 1;
        self.over = self.over.or(over);
    }
}

// The atom of two variables and an expression whose positions and whole part are given.
pub(crate) fn sealed(first: u8, second: u8, place: usize, out: Builder, part: Part) -> Atom
    ensures { (t : AtomTree) → first ≡ first_of t → second ≡ second_of t → Holds out part 1 (inside_regex (inside_of t)) → Stored result place t }
{
    let automaton = finish(out, part);
    Atom {
        first,
        second,
        place,
        automaton,
    }
}

// What a place past the last atom holds; nothing reads it. No `Default`, since arrays of 64 have none.
pub(crate) fn empty_atom() -> Atom {
    let automaton = Automaton {
        symbols: [Symbol::Any; 64],
        follow: [0; 64],
        accept: 0,
        size: 0,
    };
    Atom {
        first: b'A',
        second: b'A',
        place: 0,
        automaton,
    }
}
