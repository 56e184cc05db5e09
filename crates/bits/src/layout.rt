ghost use Rattle.std.specs.Prelude.{◌*◌, ◌≤◌};

// So many rows, one behind the other, each with a bit for each of them: a table of pairs.
#[derive(Clone, Copy)]
pub struct Rows {
    pub count: usize,
    // The words that each takes.
    pub width: usize,
    ghost wide: { count ≤ width * 64 },
}
