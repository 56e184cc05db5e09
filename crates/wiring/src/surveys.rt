ghost use Rattle.std.specs.Prelude.{◌≡◌, ℕ, IfOk, Some};
ghost use Rattle.meaning.specs.Graphs.{Graph as Meaning, New};
ghost use Rattle.wiring.specs.Listing.{Lists, Wire};
ghost use Rattle.wiring.specs.Reading.{Reached, Read};
ghost use Rattle.wiring.specs.Surveys.{Surveys};
ghost use Rattle.wiring.specs.declared.phases.Phase.TheVariants.{Loading};

use super::faults::Refusal;
use super::listing::wires;
use super::loading::load;
use super::opening::sizes;
use super::reader::Reader;
use graph::{Edge, EdgeList, ListSizes};
use std::alloc::{AllocError, Global};

// What a file leaves standing.
#[derive(Drop)]
pub struct Survey {
    // The refused records, in the order of the file.
    pub refusals: Vec<Refusal>,
    // The edges that stand at the end, rising; none where no sizes record was accepted.
    pub wires: Option<Vec<Edge>>,
}

// Reads a whole file into an edge list of at most 200 nodes and 4,096 edges.
pub fn survey_file(heap: Global, bytes: &[u8]) -> Result<Survey, AllocError>
    ensures { IfOk result (λ s. Surveys 200 4096 bytes.now s.refusals s.wires) }
{
    let mut reader = Reader::new(bytes);
    let mut refusals = Vec::new(heap);
    let opened = match sizes(&mut reader) {
        Ok(opened) => opened,
        Err(fault) => {
            refusals.push(Refusal { fault, at: 0 })?;
            return Ok(Survey {
                refusals,
                wires: None,
            });
        }
    };
    match opened {
        Some(sizes) => {
            let standing = load_list(heap, sizes, &mut reader, &mut refusals)?;
            Ok(Survey {
                refusals,
                wires: Some(standing),
            })
        }
        None => Ok(Survey {
            refusals,
            wires: None,
        }),
    }
}

// Makes the changes of the records to come to a new edge list, and lists the edges that it has then.
fn load_list(
    heap: Global,
    sizes: ListSizes,
    reader: &mut Reader,
    refusals: &mut Vec<Refusal>,
) -> Result<Vec<Edge>, AllocError>
    requires { reader.old.phase ≡ Loading }
    ensures { IfOk result (λ v. (m : ℕ)
        → ((g : Meaning) → New g sizes.nodes sizes.labels 4096
        → Reached m 4096 reader.old.bytes.now reader.old.at (Some g) refusals.old.items)
        → (g : Meaning) × Read m 4096 reader.old.bytes.now (Some g) refusals.new.items × Lists (Wire g) v.items) }
{
    let mut memory = vec![in heap; Edge::default(); 4096]?;
    let mut list = EdgeList::new(sizes, memory.as_mut_slice());
    load(reader, &mut list, refusals)?;
    wires(&list, heap)
}
