ghost use Rattle.std.specs.Prelude.{◌≡◌};
ghost use Rattle.shapes.specs.Verdicts.{Verdict, number};

use super::checks::{Ends, classes, first_alone, first_repeated, first_unconnected, first_unused};

// What is wrong with the shape of a query: a place of the head, or the number of an atom, from 0.
#[derive(Clone, Copy, Debug, PartialEq, Eq)]
pub enum Fault {
    // The variable at this place stands in the head before.
    RepeatedVariable(usize),
    // The variable at this place is in no atom.
    UnusedVariable(usize),
    // This atom makes a cycle with those before it.
    CyclicAtom(usize),
    // This atom's variables are not connected to the first atom's.
    UnconnectedAtom(usize),
    // The variable at this place, which is not the first, shares no atom with an earlier one.
    LoneVariable(usize),
}

impl Fault {
    // The refusal number. A method, since the numbers are published ones and `u8::from` would not say what the number is.
    pub fn number(self) -> u8
        ensures { result ≡ number self }
    {
        match self {
            Fault::RepeatedVariable(_) => 7,
            Fault::UnusedVariable(_) => 8,
            Fault::CyclicAtom(_) => 9,
            Fault::UnconnectedAtom(_) => 10,
            Fault::LoneVariable(_) => 11,
        }
    }
}

// Checks the head and the atoms of a query, in the order of the refusal numbers.
pub fn check_shape(head: &[u8], atoms: &[Ends]) -> Result<(), Fault>
    ensures { Verdict head.now atoms.now result }
{
    if let Some(i) = first_repeated(head) {
        return Err(Fault::RepeatedVariable(i));
    }
    if let Some(i) = first_unused(atoms, head) {
        return Err(Fault::UnusedVariable(i));
    }
    // A match: over `map_err` and `?` the proof of the branches behind it was tried and did not close.
    let class = match classes(atoms) {
        Ok(class) => class,
        Err(i) => return Err(Fault::CyclicAtom(i)),
    };
    if let Some(i) = first_unconnected(atoms, &class) {
        return Err(Fault::UnconnectedAtom(i));
    }
    if let Some(i) = first_alone(atoms, head) {
        return Err(Fault::LoneVariable(i));
    }
    Ok(())
}
