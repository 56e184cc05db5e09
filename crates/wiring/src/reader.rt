ghost use Rattle.std.specs.Prelude.{◌≡◌, ◌≤◌, length};
ghost use Rattle.wiring.specs.Order.{Nexts};
ghost use Rattle.wiring.specs.declared.phases.Phase.TheVariants.{Start};

use super::faults::Fault;
use super::phases::{Phase, read};
use super::records::Record;

// Reads the records of a file one after the other, up to the first that is refused.
#[derive(Drop)]
pub struct Reader<'a> {
    pub(crate) bytes: &'a [u8],
    // The offset of the record to come. A number, and not what is left of the file, since refusals answer it.
    pub(crate) at: usize,
    pub(crate) phase: Phase,
    ghost within: { at ≤ length bytes.now },
}

impl<'a> Reader<'a> {
    // A reader at the start of a file.
    pub fn new(bytes: &'a [u8]) -> Reader<'a>
        ensures bytes { result.bytes.now ≡ bytes.now }
        ensures at { result.at ≡ 0 }
        ensures phase { result.phase ≡ Start }
    {
        Reader {
            bytes,
            at: 0,
            phase: Phase::Start,
        }
    }

    // The offset of the record to come.
    pub(crate) fn offset(&self) -> usize
        ensures { result ≡ self.now.at }
    {
        self.at
    }

    // The record to come, or none at the end of the file. A refused one is not passed.
    pub fn next(&mut self) -> Result<Option<Record<'a>>, Fault>
        ensures reads { Nexts self.old.bytes.now self.old.at self.old.phase result self.new.at self.new.phase }
        ensures bytes { self.new.bytes.now ≡ self.old.bytes.now }
    {
        let bytes = self.bytes;
        if self.at == bytes.len() {
            return Ok(None);
        }
        let (record, rest) = read(self.phase, &bytes[self.at..])?;
        self.at = bytes.len() - rest.len();
        self.phase = Phase::Loading;
        Ok(Some(record))
    }
}
