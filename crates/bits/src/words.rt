ghost use Rattle.std.specs.Prelude.{◌≡◌, ℕ, ◌%◌, ◌<◌, true, false, if◌then◌else◌, Some, nat_eq};
ghost use Rattle.bits.specs.Bits.{bit, LowestBit};

// Whether a bit is set.
pub fn has(word: u64, i: usize) -> bool
    ensures { result ≡ bit word (i % 64) }
{
    word >> (i % 64) & 1 == 1
}

// The word with a bit set.
pub fn marked(word: u64, i: usize) -> u64
    ensures { (j : ℕ) → bit result j ≡ (if nat_eq (i % 64) j then true else bit word j) }
{
    word | 1 << (i % 64)
}

// The word with a bit cleared.
pub fn cleared(word: u64, i: usize) -> u64
    ensures { (j : ℕ) → bit result j ≡ (if nat_eq (i % 64) j then false else bit word j) }
{
    (word | 1 << (i % 64)) ^ 1 << (i % 64)
}

// The lowest set bit at `bound` or above.
pub fn lowest(word: u64, bound: usize) -> Option<usize>
    ensures { LowestBit word bound result }
{
    if bound >= 64 {
        return None;
    }
    let rest = word >> bound;
    if rest == 0 {
        return None;
    }
    Some(bound + rest.trailing_zeros() as usize)
}

// The word with its lowest set bit cleared; 0 stays 0.
pub fn without_lowest(word: u64) -> u64
    ensures bits { (i j : ℕ) → LowestBit word 0 (Some i) → bit result j ≡ (if nat_eq i j then false else bit word j) }
    ensures less { 0 < word → result < word }
    ensures none { word ≡ 0 → result ≡ 0 }
{
    word & word.saturating_sub(1)
}
