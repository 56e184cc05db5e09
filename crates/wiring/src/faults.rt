ghost use Rattle.std.specs.Prelude.{◌≡◌};
ghost use Rattle.wiring.specs.declared.faults.Fault.TheVariants.{BadQuery, BadSizes, TurnedAway};

use graph::{Fault as GraphFault, SizeFault};
use parse::Refusal as QueryRefusal;

// Why a record of a wiring file is refused.
#[derive(Clone, Copy, Debug, PartialEq, Eq)]
pub enum Fault {
    // The record runs past the end of the file.
    Cut,
    // The kind is unknown, or the payload's length is not that of its kind.
    Malformed,
    // The sizes record is missing, or comes again.
    Misplaced,
    // The sizes are out of range.
    BadSizes(SizeFault),
    // The graph refused the change.
    TurnedAway(GraphFault),
    // The text of a query was refused.
    BadQuery(QueryRefusal),
}

impl From<SizeFault> for Fault {
    ghost from_gives = { λ f r. r ≡ BadSizes f };

    fn from(f: SizeFault) -> Fault {
        Fault::BadSizes(f)
    }
}

impl From<GraphFault> for Fault {
    ghost from_gives = { λ f r. r ≡ TurnedAway f };

    fn from(f: GraphFault) -> Fault {
        Fault::TurnedAway(f)
    }
}

impl From<QueryRefusal> for Fault {
    ghost from_gives = { λ f r. r ≡ BadQuery f };

    fn from(f: QueryRefusal) -> Fault {
        Fault::BadQuery(f)
    }
}

// A record that is refused, by its offset in the file, and why.
#[derive(Clone, Copy, Debug, PartialEq, Eq)]
pub struct Refusal {
    pub fault: Fault,
    pub at: usize,
}
