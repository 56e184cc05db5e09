ghost use Rattle.std.specs.Prelude.{◌≡◌, ℕ, ◌^◌, ◌<◌};
ghost use Rattle.meaning.specs.Words.{one};
ghost use Rattle.automata.specs.Parts.{Holds, Kept, beside, followed, meant, repeated};
ghost use Rattle.automata.specs.Sets.{Linked};

use super::symbols::Symbol;
use bits::{has, marked};

// The positions of an expression while it is read: what each reads, and which may follow it.
// Positions are numbered from 1 on, and those past 63 are only counted. Arrays, since the engine has no heap; two, since the start state has no symbol.
#[derive(Drop)]
pub struct Builder {
    pub symbols: [Symbol; 64],
    pub follow: [u64; 64],
    // The number of the position to come.
    pub count: usize,
}

// A part of an expression: whether the empty word is a word of it, and the positions at which its words begin and end.
#[derive(Clone, Copy)]
pub struct Part {
    // A fact about the words; the two sets say something with it and without it.
    pub nullable: bool,
    pub first: u64,
    pub last: u64,
}

impl Builder {
    // No position yet.
    pub fn new() -> Builder
        ensures { result.count ≡ 1 }
    {
        Builder {
            symbols: [Symbol::Any; 64],
            follow: [0; 64],
            count: 1,
        }
    }

    // One position more, which reads the symbol.
    pub fn add(&mut self, symbol: Symbol) -> Part
        requires { self.old.count < 2 ^ 63 }
        ensures holds { Holds self.new result self.old.count (one (meant symbol)) }
        ensures kept { Kept self.old.count self.old self.new }
    {
        let p = self.count;
        self.count = p + 1;
        if p >= 64 {
            return Part {
                nullable: false,
                first: 0,
                last: 0,
            };
        }
        self.symbols[p] = symbol;
        self.follow[p] = 0;
        let only = marked(0, p);
        Part {
            nullable: false,
            first: only,
            last: only,
        }
    }

    // The part for `a` and then `b`. What stays as it was is said in each contract: no ghost field can compare two states.
    pub fn join(&mut self, a: Part, b: Part) -> Part
        ensures count { self.new.count ≡ self.old.count }
        ensures symbols { self.new.symbols ≡ self.old.symbols }
        ensures linked { Linked self.old.follow self.new.follow 64 a.last b.first }
        ensures part { result ≡ followed a b }
    {
        self.link(a.last, b.first);
        Part {
            nullable: a.nullable && b.nullable,
            first: if a.nullable {
                a.first | b.first
            } else {
                a.first
            },
            last: if b.nullable { b.last | a.last } else { b.last },
        }
    }

    // The part for `a` any number of times.
    pub fn star(&mut self, a: Part) -> Part
        ensures count { self.new.count ≡ self.old.count }
        ensures symbols { self.new.symbols ≡ self.old.symbols }
        ensures linked { Linked self.old.follow self.new.follow 64 a.last a.first }
        ensures part { result ≡ repeated a }
    {
        optional(self.plus(a))
    }

    // The part for `a` once or more.
    pub fn plus(&mut self, a: Part) -> Part
        ensures count { self.new.count ≡ self.old.count }
        ensures symbols { self.new.symbols ≡ self.old.symbols }
        ensures linked { Linked self.old.follow self.new.follow 64 a.last a.first }
        ensures part { result ≡ a }
    {
        self.link(a.last, a.first);
        a
    }

    // Lets each position of `first` follow each of `last`.
    fn link(&mut self, last: u64, first: u64)
        ensures count { self.new.count ≡ self.old.count }
        ensures symbols { self.new.symbols ≡ self.old.symbols }
        ensures linked { Linked self.old.follow self.new.follow 64 last first }
    {
        for (p, row) in self.follow.iter_mut().enumerate() {
            if has(last, p) {
                *row |= first;
            }
        }
    }
}

// The part for `a` or nothing.
pub fn optional(a: Part) -> Part
    ensures { result ≡ repeated a }
{
    Part {
        nullable: true,
        first: a.first,
        last: a.last,
    }
}

// The part for `a` or `b`.
pub fn either(a: Part, b: Part) -> Part
    ensures { result ≡ beside a b }
{
    Part {
        nullable: a.nullable || b.nullable,
        first: a.first | b.first,
        last: a.last | b.last,
    }
}
