ghost use Rattle.query.specs.Expressions.{Expresses};

use super::cursor::Reader;
use automata::{Automaton, Builder, finish};

// Reads a text that is one path expression, or answers the length of its longest beginning that begins one.
// An automaton of more than 63 positions has them only counted.
pub fn read_expression(text: &[u8]) -> Result<Automaton, usize>
    ensures { Expresses text.now result }
{
    let mut reader = Reader { text, at: 0 };
    let mut out = Builder::new();
    let whole = reader.alternative(&mut out)?;
    if reader.at < text.len() {
        return Err(reader.at);
    }
    Ok(finish(out, whole))
}
