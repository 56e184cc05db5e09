ghost use Rattle.std.specs.Prelude.{◌≡◌, Some};
ghost use Rattle.wiring.specs.Lines.{refused_text, count_text};
ghost use Rattle.wiring.specs.Numbers.{number};

use super::faults::{Fault, Refusal};
use std::fmt;

impl Fault {
    // The refusal's number. A method, since the numbers are published ones and `u8::from` would not say what the number is.
    pub fn code(self) -> u8
        ensures { result ≡ number self }
    {
        match self {
            Fault::Cut => 15,
            Fault::Malformed => 16,
            Fault::Misplaced => 17,
            Fault::BadSizes(_) => 14,
            Fault::TurnedAway(_) | Fault::BadQuery(_) => 18,
        }
    }
}

impl fmt::Display for Refusal {
    ghost output = { λ r. Some (refused_text r) };

    fn fmt<W: fmt::Write>(&self, f: &mut fmt::Formatter<W>) -> fmt::Result {
        let number = self.fault.code();
        let at = self.at;
        write!(f, "refused {number} at {at}")
    }
}

// How many wires there are.
#[derive(Clone, Copy)]
pub struct Count(pub usize);

impl fmt::Display for Count {
    ghost output = { λ n. Some (count_text n.0) };

    fn fmt<W: fmt::Write>(&self, f: &mut fmt::Formatter<W>) -> fmt::Result {
        let n = self.0;
        write!(f, "{n} wires")
    }
}
