ghost use Rattle.std.specs.Prelude.{◌≡◌, ◌<◌, ◌≤◌, length, IfSome, IfNone, option_map, slice_index, slice_index_or};
ghost use Rattle.meaning.specs.Firsts.{FirstAt};
ghost use Rattle.meaning.specs.Shapes.{Has};
ghost use Rattle.shapes.specs.Checks.{of};
ghost use Rattle.search.specs.Heads.{Placed, pair_at, root_at};

use super::places::{Pair, Places, Root};
use joins::Side;
use shapes::Ends;
use std::array;

// The first place of a variable in the head, if it stands there.
fn place_of(head: &[u8], x: u8) -> Option<usize>
    ensures { FirstAt (λ i. slice_index head.now i ≡ x) (length head.now) result }
{
    head.iter().position(|y| *y == x)
}

// The places of the variables of atom c, if there is one of that number.
fn pair_of(head: &[u8], atoms: &[Ends], c: usize) -> Pair
    ensures { pair_at head.now atoms.now c result }
{
    match atoms.get(c) {
        Some(a) => Pair {
            first: place_of(head, a.first),
            second: place_of(head, a.second),
        },
        None => Pair {
            first: None,
            second: None,
        },
    }
}

// The first atom that has a variable, and the side of its pairs on which that stands.
fn root_of(atoms: &[Ends], x: u8) -> Option<Root>
    ensures { root_at atoms.now x result }
{
    let atom = atoms.iter().position(|a| a.has(x))?;
    let side = Side::of(atoms[atom], x);
    Some(Root { atom, side })
}

// The places of the atoms' variables in a head.
pub fn find_places(head: &[u8], atoms: &[Ends]) -> Places
    requires some { 0 < length head.now }
    requires few { length atoms.now ≤ 8 }
    ensures { Placed head.now atoms.now result }
{
    Places {
        free: head.len(),
        atoms: atoms.len(),
        pairs: array::from_fn(|c| pair_of(head, atoms, c)),
        root: root_of(atoms, head[0]),
    }
}
