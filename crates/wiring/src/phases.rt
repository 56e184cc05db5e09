ghost use Rattle.std.specs.Prelude.{◌≡◌, true, false, Ok, Err};
ghost use Rattle.wiring.specs.Numbers.{number};
ghost use Rattle.wiring.specs.Order.{Reads, admits};

use super::faults::Fault;
use super::records::{Record, parse};

// How far the reading of a file has come.
#[derive(Clone, Copy)]
pub enum Phase {
    // The sizes record is to come, and no other is taken.
    Start,
    // The sizes record was read, and every other is taken.
    Loading,
}

// Takes the record at the front of `bytes` if it is in its place, and hands on the bytes behind it.
pub(crate) fn read(phase: Phase, bytes: &[u8]) -> Result<(Record<'_>, &[u8]), Fault>
    ensures { Reads phase bytes.now result }
{
    let (record, rest) = parse(bytes)?;
    admit(phase, record)?;
    Ok((record, rest))
}

// Whether a record is in its place.
fn admit(phase: Phase, record: Record) -> Result<(), Fault>
    ensures { elim result [ Ok _ ↦ admits phase «record».entry ≡ true | Err f ↦ (admits phase «record».entry ≡ false) × (number f ≡ 17) ] }
{
    match (phase, record) {
        (Phase::Start, Record::Sizes(_, _)) => Ok(()),
        (Phase::Loading, Record::Change(_)) => Ok(()),
        (Phase::Loading, Record::Query(_)) => Ok(()),
        (Phase::Start, _) | (Phase::Loading, Record::Sizes(_, _)) => Err(Fault::Misplaced),
    }
}
