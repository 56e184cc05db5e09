ghost use Rattle.std.specs.Prelude.{◌≡◌, ℕ, ◌+◌, ◌/◌, ◌<◌, ◌≤◌, length, slice_index, Decides};
ghost use Rattle.bits.specs.Rows.{Cleared, Narrowed, RowSet, SomeBit, Widened, row_bit};
ghost use Rattle.bits.specs.Rows.{width as words_of};

use super::layout::Rows;
use super::words::{has, marked};

// How many words a row of so many bits takes.
pub fn width(bits: usize) -> usize
    ensures { result ≡ words_of bits }
{
    bits.div_ceil(64)
}

impl Rows {
    // The rows of a table of pairs of so many nodes.
    pub fn of(nodes: usize) -> Rows
        ensures count { result.count ≡ nodes }
        ensures width { result.width ≡ words_of nodes }
    {
        Rows {
            count: nodes,
            width: width(nodes),
        }
    }
}

// Whether bit `i` of the row that begins at `start` is set.
pub fn test(words: &[u64], start: usize, i: usize) -> bool
    requires { start + i / 64 < length words.now }
    ensures { result ≡ row_bit words.now start i }
{
    has(words[start + i / 64], i)
}

// Sets bit `i` of the row that begins at `start`.
pub fn set(words: &mut [u64], start: usize, i: usize)
    requires { start + i / 64 < length words.old }
    ensures { RowSet words.old words.new start i }
{
    let k = start + i / 64;
    words[k] = marked(words[k], i);
}

// Writes 0 to `count` words from `start` on.
pub fn clear(words: &mut [u64], start: usize, count: usize)
    requires { start + count ≤ length words.old }
    ensures { Cleared words.old words.new start count }
{
    words[start..start + count].fill(0);
}

// Whether some bit of the row of `count` words that begins at `start` is set.
pub fn has_some(words: &[u64], start: usize, count: usize) -> bool
    requires { start + count ≤ length words.now }
    ensures { Decides result (SomeBit words.now start count) }
{
    words[start..start + count].iter().any(|word| *word != 0)
}

// Changes each word of `to` by the word of `from` at its place.
fn update<F: Fn(u64, u64) -> u64>(to: &mut [u64], from: &[u64], f: F)
    requires long { length to.old ≤ length from.now }
    requires total { F.IsAlwaysCallable f }
    ensures { (k : ℕ) → k < length to.old → F.post f (slice_index to.old k) (slice_index from.now k) (slice_index to.new k) }
{
    for (i, word) in to.iter_mut().enumerate() {
        *word = f(*word, from[i]);
    }
}

// Keeps in the row at `row` the bits that the row at `mask` has. Both have `count` words, and the first stands before the second.
pub fn narrow(words: &mut [u64], row: usize, mask: usize, count: usize)
    requires apart { row + count ≤ mask }
    requires room { mask + count ≤ length words.old }
    ensures { Narrowed words.old words.new row mask count }
{
    let (low, high) = words.split_at_mut(mask);
    update(&mut low[row..row + count], &high[..count], |a, b| a & b);
}

// Adds to the row at `mask` the bits of the row at `row`. Both have `count` words, and the second stands before the first.
pub fn widen(words: &mut [u64], row: usize, mask: usize, count: usize)
    requires apart { row + count ≤ mask }
    requires room { mask + count ≤ length words.old }
    ensures { Widened words.old words.new row mask count }
{
    let (low, high) = words.split_at_mut(mask);
    update(&mut high[..count], &low[row..row + count], |a, b| a | b);
}
