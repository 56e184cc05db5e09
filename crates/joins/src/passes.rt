ghost use Rattle.std.specs.Prelude.{ℕ, ◌+◌, ◌*◌, ◌<◌, ◌≤◌, length};
ghost use Rattle.joins.specs.Layouts.{Ready, Reduced};
ghost use Rattle.joins.specs.Passes.{Climbed, Descended, Passed};
ghost use Rattle.order.specs.Orders.{Ordered};
ghost use Rattle.order.specs.Ranks.{ranks};
ghost use Rattle.shapes.specs.Checks.{of};

use super::sides::{Side, keep, note};
use bits::{Rows, clear};
use order::Order;
use shapes::Ends;

// Keeps in the table of atom `into` the pairs whose node at the variable some pair of atom `from` has there.
// A row of words behind the tables is scratch, and 0 before and after.
fn semijoin(words: &mut [u64], atoms: &[Ends], rows: Rows, into: usize, from: usize, variable: u8)
    requires into { into < length atoms.now }
    requires from { from < length atoms.now }
    requires room { length atoms.now * (rows.count * rows.width) + rows.width ≤ length words.old }
    requires ready { Ready words.old (length atoms.now) rows.count rows.width }
    ensures { Reduced (of atoms.now) words.old words.new (length atoms.now) rows.count rows.width into from variable }
{
    let size = rows.count * rows.width;
    let mask = atoms.len() * size;
    note(
        words,
        rows,
        from * size,
        mask,
        Side::of(atoms[from], variable),
    );
    keep(
        words,
        rows,
        into * size,
        mask,
        Side::of(atoms[into], variable),
    );
    clear(words, mask, rows.width);
}

// The four requirements stand at each of the passes: no ghost field can hold `ordered`, which names a variable and so is no proposition.

// From the last rank to the first, each atom's parent keeps what it shares with the atom.
fn climb(words: &mut [u64], atoms: &[Ends], order: &Order, rows: Rows)
    requires some { (0 < length atoms.now) × (length atoms.now ≤ 8) }
    requires room { length atoms.now * (rows.count * rows.width) + rows.width ≤ length words.old }
    requires ready { Ready words.old (length atoms.now) rows.count rows.width }
    requires ordered { (x : ℕ) × Ordered (of atoms.now) (length atoms.now) x (ranks order.now) }
    ensures { Climbed (of atoms.now) (length atoms.now) (ranks order.now) words.old words.new rows.count rows.width 1 }
{
    // By number: it is the rank that the contract counts by.
    for i in (1..atoms.len()).rev() {
        let step = order.steps[i];
        semijoin(
            words,
            atoms,
            rows,
            order.steps[step.parent].atom,
            step.atom,
            step.shared,
        );
    }
}

// From the first rank to the last, each atom keeps what it shares with its parent.
fn descend(words: &mut [u64], atoms: &[Ends], order: &Order, rows: Rows)
    requires some { (0 < length atoms.now) × (length atoms.now ≤ 8) }
    requires room { length atoms.now * (rows.count * rows.width) + rows.width ≤ length words.old }
    requires ready { Ready words.old (length atoms.now) rows.count rows.width }
    requires ordered { (x : ℕ) × Ordered (of atoms.now) (length atoms.now) x (ranks order.now) }
    ensures { Descended (of atoms.now) (length atoms.now) (ranks order.now) words.old words.new rows.count rows.width (length atoms.now) }
{
    // By number: it is the rank that the contract counts by.
    for i in 1..atoms.len() {
        let step = order.steps[i];
        semijoin(
            words,
            atoms,
            rows,
            step.atom,
            order.steps[step.parent].atom,
            step.shared,
        );
    }
}

// Makes both passes: each table then keeps exactly the pairs that assignments satisfying all tables use.
// A row of words behind the tables is scratch, and 0 before and after; no word behind them changes.
pub fn reduce_all(words: &mut [u64], atoms: &[Ends], order: &Order, rows: Rows)
    requires some { (0 < length atoms.now) × (length atoms.now ≤ 8) }
    requires room { length atoms.now * (rows.count * rows.width) + rows.width ≤ length words.old }
    requires ready { Ready words.old (length atoms.now) rows.count rows.width }
    requires ordered { (x : ℕ) × Ordered (of atoms.now) (length atoms.now) x (ranks order.now) }
    ensures { Passed (of atoms.now) (length atoms.now) words.old words.new rows.count rows.width }
{
    climb(words, atoms, order, rows);
    descend(words, atoms, order, rows);
}
