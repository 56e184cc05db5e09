ghost use Rattle.std.specs.Prelude.{◌≡◌, ◌<◌, ◌≤◌, Some};
ghost use Rattle.search.specs.declared.places.Root.{Root as RootOf};

use joins::Side;

// Where the two variables of an atom stand in the head; a bound one does not.
#[derive(Clone, Copy)]
pub struct Pair {
    pub first: Option<usize>,
    pub second: Option<usize>,
}

// The first atom that has the first free variable, and on which side of its pairs.
#[derive(Clone, Copy)]
pub struct Root {
    pub atom: usize,
    pub side: Side,
}

// Where the variables of a query's atoms stand in its head. An array, since the engine has no heap.
#[derive(Clone, Copy)]
pub struct Places {
    // The number of free variables.
    pub free: usize,
    pub atoms: usize,
    // By atom.
    pub pairs: [Pair; 8],
    pub root: Option<Root>,
    ghost few: { atoms ≤ 8 },
    ghost rooted: { (r : RootOf) → root ≡ Some r → r.atom < atoms },
}
