ghost use Rattle.std.specs.Prelude.{◌≡◌, ℕ, ◌+◌, ◌≤◌, List, ◌++◌, length, drop};
ghost use Rattle.automata.specs.Positions.{size as positions};
ghost use Rattle.query.specs.Limits.{Lowest, Over, SixtyFourth, inside_of, symbol, symbols};
ghost use Rattle.query.specs.Queries.{AtomTree, atom_text, inside_regex};
ghost use Rattle.query.specs.Texts.{Judged};
ghost use Rattle.query.specs.Readings.{Wholly};

use super::cursor::Reader;
use super::drafts::{Draft, Fault, Query, empty_atom};

// The query of a text, if it is one within the limits.
pub fn read_query(text: &[u8]) -> Result<Query, Fault>
    ensures { Judged text.now result }
{
    let draft = whole(text).map_err(Fault::NoQuery)?;
    match draft.over {
        None => {
            let head = draft.head;
            let atoms = draft.atoms;
            Ok(Query {
                head,
                atoms,
                count: draft.count,
            })
        }
        Some(place) => Err(Fault::TooLarge(place)),
    }
}

// Reads the whole text: its draft, or the length of its longest beginning that begins some query.
fn whole(text: &[u8]) -> Result<Draft, usize>
    ensures { Wholly text.now result }
{
    let mut reader = Reader { text, at: 0 };
    let head = reader.head()?;
    let mut out = Draft {
        head,
        atoms: [empty_atom(); 8],
        count: 0,
        over: None,
    };
    reader.clause(&mut out)?;
    while reader.eat(',') {
        reader.clause(&mut out)?;
    }
    if reader.at < text.len() {
        Err(reader.at)
    } else {
        Ok(out)
    }
}

// Where an atom that stands at a place behind others is over a limit, if it is.
pub(crate) fn excess(text: &[u8], start: usize, count: usize, size: usize) -> Option<usize>
    requires { start + 2 ≤ length text.now }
    ensures { (t : AtomTree) (ys : List ℕ) → drop start text.now ≡ atom_text t ++ ys → size ≡ positions (inside_regex (inside_of t)) → Lowest (Over start count t) result }
{
    if count == 8 {
        return Some(start);
    }
    if size > 63 {
        Some(sixty_fourth(text, start + 2))
    } else {
        None
    }
}

// The place of the 64th letter or dot from a place on, or the end.
fn sixty_fourth(text: &[u8], from: usize) -> usize
    requires { from ≤ length text.now }
    ensures { 64 ≤ symbols (drop from text.now) → (j : ℕ) × (result ≡ from + j) × SixtyFourth (drop from text.now) j }
{
    let mut seen: usize = 0;
    for (i, b) in text[from..].iter().enumerate() {
        if is_symbol(*b) {
            if seen == 63 {
                return from + i;
            }
            seen += 1;
        }
    }
    text.len()
}

// Whether a byte is a letter or a dot.
fn is_symbol(b: u8) -> bool
    ensures { result ≡ symbol b }
{
    matches!(b, b'a'..=b'z' | b'.')
}
