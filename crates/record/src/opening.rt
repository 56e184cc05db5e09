ghost use Rattle.record.specs.Records.{Newly, Opens, new_text};

use super::records::{Blank, Opened, Query};
use parse::{Refusal, parse};

impl Query {
    // A new record: blank, with the query A:A[.]B.
    pub fn new() -> (Query, Blank)
        ensures { Newly new_text result.0 }
    {
        match parse(b"A:A[.]B") {
            Ok(parsed) => {
                let query = Query {
                    parsed,
                    nodes: 0,
                    last: None,
                };
                (query, Blank(()))
            }
            Err(_) => unreachable(),
        }
    }
}

// Opens a blank record with a text. Refused, the state comes back and the record has not changed.
pub fn open(state: Blank, query: &mut Query, text: &[u8]) -> Result<Opened, (Blank, Refusal)>
    ensures { Opens text.now query.old query.new result }
{
    match parse(text) {
        Ok(parsed) => {
            let Blank(_) = state;
            *query = Query {
                parsed,
                nodes: 0,
                last: None,
            };
            Ok(Opened(()))
        }
        Err(refusal) => Err((state, refusal)),
    }
}
