ghost use Rattle.std.specs.Iterator.{at_most};
ghost use Rattle.bits.specs.Bits.{Takes};

use super::words::{lowest, without_lowest};

// The members of a word as a set, rising.
#[derive(Drop)]
pub struct Members(pub u64);

impl Iterator for Members {
    type Item = usize;

    ghost next_gives = { λ s r t. Takes s.0 r t.0 };

    ghost remaining = { λ s. at_most s.0 };

    fn next(&mut self) -> Option<usize> {
        let member = lowest(self.0, 0)?;
        self.0 = without_lowest(self.0);
        Some(member)
    }
}
