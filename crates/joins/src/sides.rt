ghost use Rattle.std.specs.Prelude.{◌≡◌, ◌+◌, ◌*◌, ◌<◌, ◌≤◌, length, ◌==◌};
ghost use Rattle.joins.specs.Sides.{KeptBy, Noted, RowKept, RowNoted, is_first};

use bits::{Rows, clear, has_some, narrow, set, test, widen};
use shapes::Ends;

// A side of the pairs of a table: their first nodes, each with a row of its own, or their second.
#[derive(Clone, Copy)]
pub enum Side {
    First,
    Second,
}

impl Side {
    // The side of an atom's pairs on which a variable of the atom stands.
    pub fn of(a: Ends, variable: u8) -> Side
        ensures { is_first result ≡ (variable == a.first) }
    {
        if variable == a.first {
            Side::First
        } else {
            Side::Second
        }
    }
}

// Rows and masks are given by their places and not as slices, since both lie in the workspace that the caller lends.

// Adds node `u` to the set at `mask` if the row at `row` has a bit.
fn note_row(words: &mut [u64], row: usize, w: usize, mask: usize, u: usize)
    requires apart { row + w ≤ mask }
    requires room { mask + w ≤ length words.old }
    requires wide { u < w * 64 }
    ensures { RowNoted words.old words.new row w mask u }
{
    if has_some(words, row, w) {
        set(words, mask, u);
    }
}

// Makes the set at `mask` the nodes that the pairs of the table at `start` have on a side.
pub(crate) fn note(words: &mut [u64], rows: Rows, start: usize, mask: usize, side: Side)
    requires apart { start + rows.count * rows.width ≤ mask }
    requires room { mask + rows.width ≤ length words.old }
    ensures { Noted words.old words.new start rows.count rows.width mask (is_first side) }
{
    clear(words, mask, rows.width);
    for u in 0..rows.count {
        let row = start + u * rows.width;
        match side {
            Side::First => note_row(words, row, rows.width, mask, u),
            Side::Second => widen(words, row, mask, rows.width),
        }
    }
}

// Clears the row unless node `u` is in the set at `mask`.
fn keep_row(words: &mut [u64], row: usize, w: usize, mask: usize, u: usize)
    requires apart { row + w ≤ mask }
    requires room { mask + w ≤ length words.old }
    requires wide { u < w * 64 }
    ensures { RowKept words.old words.new row w mask u }
{
    if !test(words, mask, u) {
        clear(words, row, w);
    }
}

// Keeps the pairs of the table at `start` whose node on a side is in the set at `mask`, and no other.
pub(crate) fn keep(words: &mut [u64], rows: Rows, start: usize, mask: usize, side: Side)
    requires apart { start + rows.count * rows.width ≤ mask }
    requires room { mask + rows.width ≤ length words.old }
    ensures { KeptBy words.old words.new start rows.count rows.width mask (is_first side) }
{
    for u in 0..rows.count {
        let row = start + u * rows.width;
        match side {
            Side::First => keep_row(words, row, rows.width, mask, u),
            Side::Second => narrow(words, row, mask, rows.width),
        }
    }
}
