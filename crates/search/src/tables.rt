ghost use Rattle.std.specs.Prelude.{◌*◌, ◌≤◌, length};

use super::places::Places;
use bits::Rows;

// The tables of a workspace, one for each atom, and the places of the atoms' variables.
#[derive(Clone, Copy)]
pub struct Tables<'a> {
    pub words: &'a [u64],
    pub places: &'a Places,
    pub rows: Rows,
    ghost room: { places.now.atoms * (rows.count * rows.width) ≤ length words.now },
}
