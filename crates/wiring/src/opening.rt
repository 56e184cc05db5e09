ghost use Rattle.std.specs.Prelude.{◌≡◌, Ok, Err};
ghost use Rattle.meaning.specs.Graphs.{Within};
ghost use Rattle.graph.specs.Calls.{BadSizes};
ghost use Rattle.wiring.specs.Surveys.{Opens};
ghost use Rattle.wiring.specs.declared.phases.Phase.TheVariants.{Start};

use super::faults::Fault;
use super::reader::Reader;
use super::records::Record;
use graph::{ListSizes, SizeFault};

// The sizes that a file begins with, or none where it is empty.
pub(crate) fn sizes(reader: &mut Reader) -> Result<Option<ListSizes>, Fault>
    requires start { reader.old.at ≡ 0 }
    requires phase { reader.old.phase ≡ Start }
    ensures opens { Opens 200 reader.old.bytes.now result reader.new.at reader.new.phase }
    ensures bytes { reader.new.bytes.now ≡ reader.old.bytes.now }
{
    let Some(record) = reader.next()? else {
        return Ok(None);
    };
    match record {
        Record::Sizes(nodes, labels) => Ok(Some(site_sizes(nodes, labels)?)),
        Record::Change(_) | Record::Query(_) => unreachable(),
    }
}

// Sizes of at most 200 nodes, checked.
fn site_sizes(nodes: u16, labels: u16) -> Result<ListSizes, SizeFault>
    ensures { elim result [ Ok s ↦ (s.nodes ≡ nodes) × (s.labels ≡ labels) × Within 200 nodes labels | Err f ↦ BadSizes 200 nodes labels f ] }
{
    if nodes > 200 {
        return Err(SizeFault::Nodes);
    }
    ListSizes::new(nodes, labels)
}
