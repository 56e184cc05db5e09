// A query text, with all of its checks.
#![tactic(auto)]

ghost use Rattle.std.specs.Prelude.{◌≡◌, ℕ, ◌<◌, ◌≤◌, length, slice_index_or};
ghost use Rattle.shapes.specs.declared.checks.Ends.{Ends as EndsOf};
ghost use Rattle.query.specs.Texts.{HoldsText};
ghost use Rattle.parse.specs.declared.Refusal.TheVariants.{Unread};
ghost use Rattle.parse.specs.Parsing.{Parses, refusal_number, refusal_place};
ghost use Rattle.parse.specs.Shaping.{Numbered, kept_place, no_atom, pair};

use order::{Order, reach};
use query::{Atom, Query, read_query};
use shapes::{Ends, check_shape};
use std::array;

// A query that passed every check, and the order in which its atoms are reached.
#[derive(Clone, Copy)]
pub struct Parsed {
    pub query: Query,
    pub order: Order,
}

// Why a text is refused.
#[derive(Clone, Copy, Debug, PartialEq, Eq)]
pub enum Refusal {
    // It has more than 512 bytes.
    TooLong,
    // It is no query, or over a limit.
    Unread(query::Fault),
    // Its head or its atoms are out of shape, and where in the text that shows.
    Misshapen(shapes::Fault, usize),
}

impl From<query::Fault> for Refusal {
    ghost from_gives = { λ f r. r ≡ Unread f };

    fn from(f: query::Fault) -> Refusal {
        Refusal::Unread(f)
    }
}

impl Refusal {
    // The refusal number, 4 to 11. A method, since the numbers are published ones and `u8::from` would not say what the number is.
    pub fn number(self) -> u8
        ensures { result ≡ refusal_number self }
    {
        match self {
            Refusal::TooLong => 4,
            Refusal::Unread(fault) => fault.number(),
            Refusal::Misshapen(fault, _) => fault.number(),
        }
    }

    // Where in the text it shows.
    pub fn place(self) -> usize
        ensures { result ≡ refusal_place self }
    {
        match self {
            Refusal::TooLong => 512,
            Refusal::Unread(fault) => fault.place(),
            Refusal::Misshapen(_, place) => place,
        }
    }
}

// The query of a text, if it passes every check.
pub fn parse(text: &[u8]) -> Result<Parsed, Refusal>
    ensures { Parses text.now result }
{
    if text.len() > 512 {
        return Err(Refusal::TooLong);
    }
    arrange(text, read_query(text)?)
}

// Checks the shape of a query that was read from a text, and puts its atoms in order.
fn arrange(text: &[u8], query: Query) -> Result<Parsed, Refusal>
    requires short { length text.now ≤ 512 }
    requires holds { HoldsText query text.now }
    ensures { Parses text.now result }
{
    let pairs = ends(&query.atoms);
    let atoms = &pairs[..query.count];
    match check_shape(&text[..query.head.count], atoms) {
        Ok(()) => {
            let order = reach(atoms, query.head.names[0]);
            Ok(Parsed { query, order })
        }
        Err(fault) => {
            let place = place(&query.atoms, fault);
            Err(Refusal::Misshapen(fault, place))
        }
    }
}

// The two variables of each atom.
pub fn ends(atoms: &[Atom; 8]) -> [Ends; 8]
    ensures long { length result ≡ 8 }
    ensures each { (d : EndsOf) (i : ℕ) → i < 8 → slice_index_or result i d ≡ pair (slice_index_or atoms.now i no_atom) }
{
    array::from_fn(|i| end(&atoms[i]))
}

// The two variables of an atom. No `From`: neither type is of this crate.
fn end(atom: &Atom) -> Ends
    ensures { result ≡ pair atom.now }
{
    Ends {
        first: atom.first,
        second: atom.second,
    }
}

// The place in the text of what a check of the shape found.
fn place(atoms: &[Atom; 8], fault: shapes::Fault) -> usize
    requires { Numbered 8 fault }
    ensures { result ≡ kept_place atoms.now fault }
{
    match fault {
        shapes::Fault::RepeatedVariable(i)
        | shapes::Fault::UnusedVariable(i)
        | shapes::Fault::LoneVariable(i) => i,
        shapes::Fault::CyclicAtom(i) | shapes::Fault::UnconnectedAtom(i) => atoms[i].place,
    }
}
