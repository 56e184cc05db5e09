ghost use Rattle.std.specs.Prelude.{◌≡◌, ℕ, ◌<◌, ◌≤◌, true, ◌⊎◌, length, Some, None, Ok, Err, Decides, slice_index};
ghost use Rattle.shapes.specs.Classes.{Classes, Merged};
ghost use Rattle.meaning.specs.Firsts.{FirstAt};
ghost use Rattle.meaning.specs.Shapes.{Has, Joins};
ghost use Rattle.shapes.specs.Checks.{of, Repeated, Unused, Cyclic, Unconnected, Alone};

use std::array;

// The two variables of an atom, by their bytes in the text.
#[derive(Clone, Copy)]
pub struct Ends {
    pub first: u8,
    pub second: u8,
}

impl Ends {
    // Whether x is one of the two.
    pub fn has(self, x: u8) -> bool
        ensures { Decides result ((self.first ≡ x) ⊎ (self.second ≡ x)) }
    {
        self.first == x || self.second == x
    }

    // Whether the two are x and y, in either order.
    fn joins(self, x: u8, y: u8) -> bool
        ensures { Decides result (((self.first ≡ x) × (self.second ≡ y)) ⊎ ((self.first ≡ y) × (self.second ≡ x))) }
    {
        self.first == x && self.second == y || self.first == y && self.second == x
    }
}

// Whether one of the first n variables of the head is x.
fn stands(head: &[u8], n: usize, x: u8) -> bool
    requires { n ≤ length head.now }
    ensures { Decides result ((j : ℕ) × (j < n) × (slice_index head.now j ≡ x)) }
{
    head[..n].contains(&x)
}

// The first place of the head whose variable stands before it too.
pub(crate) fn first_repeated(head: &[u8]) -> Option<usize>
    ensures { FirstAt (Repeated head.now) (length head.now) result }
{
    (0..head.len()).find(|i| stands(head, *i, head[*i]))
}

// Whether some atom has the variable x.
fn used(atoms: &[Ends], x: u8) -> bool
    ensures { Decides result ((c : ℕ) × (c < length atoms.now) × Has (of atoms.now) c x) }
{
    atoms.iter().any(|a| a.has(x))
}

// The first place of the head whose variable is in no atom.
pub(crate) fn first_unused(atoms: &[Ends], head: &[u8]) -> Option<usize>
    ensures { FirstAt (Unused atoms.now head.now) (length head.now) result }
{
    head.iter().position(|x| !used(atoms, *x))
}

// Makes the class `from` a part of the class `into`.
fn merge(class: &mut [usize; 256], from: usize, into: usize)
    ensures { Merged class.old class.new from into }
{
    for c in class.iter_mut() {
        if *c == from {
            *c = into;
        }
    }
}

// A class for each variable, equal for two just if the atoms connect them; or the first atom that makes a cycle with those before it.
pub(crate) fn classes(atoms: &[Ends]) -> Result<[usize; 256], usize>
    ensures { elim result [ Ok class ↦ FirstAt (Cyclic atoms.now) (length atoms.now) None × Classes (of atoms.now) (length atoms.now) class | Err i ↦ FirstAt (Cyclic atoms.now) (length atoms.now) (Some i) ] }
{
    let mut class = array::from_fn(|v| v);
    for (i, a) in atoms.iter().enumerate() {
        let x = class[a.first as usize];
        let y = class[a.second as usize];
        if x == y {
            return Err(i);
        }
        merge(&mut class, x, y);
    }
    Ok(class)
}

// The first atom whose variables are not connected to the first atom's.
pub(crate) fn first_unconnected(atoms: &[Ends], class: &[usize; 256]) -> Option<usize>
    requires { Classes (of atoms.now) (length atoms.now) class.now }
    ensures { FirstAt (Unconnected atoms.now) (length atoms.now) result }
{
    atoms.iter().position(|a| class[a.first as usize] != class[atoms[0].first as usize])
}

// Whether some atom has the variables x and y.
fn shared(atoms: &[Ends], x: u8, y: u8) -> bool
    ensures { Decides result ((c : ℕ) × (c < length atoms.now) × Joins (of atoms.now) c x y) }
{
    atoms.iter().any(|a| a.joins(x, y))
}

// Whether the variable at i of the head shares an atom with an earlier one.
fn linked(atoms: &[Ends], head: &[u8], i: usize) -> bool
    requires { i < length head.now }
    ensures { Decides result ((j : ℕ) × (c : ℕ) × (j < i) × (c < length atoms.now) × Joins (of atoms.now) c (slice_index head.now j) (slice_index head.now i)) }
{
    head[..i].iter().any(|x| shared(atoms, *x, head[i]))
}

// The first place of the head after its start whose variable shares no atom with an earlier one.
pub(crate) fn first_alone(atoms: &[Ends], head: &[u8]) -> Option<usize>
    ensures { FirstAt (Alone atoms.now head.now) (length head.now) result }
{
    (1..head.len()).find(|i| !linked(atoms, head, *i))
}
