ghost use Rattle.std.specs.Prelude.{◌≡◌, ℕ, ◌<◌, true, List, [], ◌∷◌, ◌++◌, IfOk, Some, Ok, Err, MatchBool, OnOk};
ghost use Rattle.wiring.specs.Order.{admits};
ghost use Rattle.wiring.specs.Reading.{Obeys, Reached, Read, refusal};
ghost use Rattle.wiring.specs.declared.faults.Refusal.{Refusal as Refused};
ghost use Rattle.wiring.specs.declared.phases.Phase.TheVariants.{Loading};

use super::faults::{Fault, Refusal};
use super::reader::Reader;
use super::records::Record;
use graph::{Graph, apply};
use parse::parse;
use std::alloc::AllocError;

// Makes the changes of the records to come, up to the end or to a record that ends the reading, and notes each refusal.
pub(crate) fn load<G: Graph>(
    reader: &mut Reader,
    graph: &mut G,
    refusals: &mut Vec<Refusal>,
) -> Result<(), AllocError>
    requires { reader.old.phase ≡ Loading }
    ensures { OnOk result ((m k : ℕ)
        → Reached m k reader.old.bytes.now reader.old.at (Some (G.Graph.graph graph.old)) refusals.old.items
        → Read m k reader.old.bytes.now (Some (G.Graph.graph graph.new)) refusals.new.items) }
{
    while step(reader, graph, refusals)? {}
    Ok(())
}

// Makes the change of the record to come, and answers whether the reading goes on.
// The phase stands in the contracts, since the reader is the same before the sizes record and after it.
fn step<G: Graph>(
    reader: &mut Reader,
    graph: &mut G,
    refusals: &mut Vec<Refusal>,
) -> Result<bool, AllocError>
    requires { reader.old.phase ≡ Loading }
    ensures reads { IfOk result (λ on. (m k : ℕ)
        → Reached m k reader.old.bytes.now reader.old.at (Some (G.Graph.graph graph.old)) refusals.old.items
        → MatchBool on
        (Reached m k reader.old.bytes.now reader.new.at (Some (G.Graph.graph graph.new)) refusals.new.items)
        (Read m k reader.old.bytes.now (Some (G.Graph.graph graph.new)) refusals.new.items)) }
    ensures bytes { reader.new.bytes.now ≡ reader.old.bytes.now }
    ensures phase { reader.new.phase ≡ Loading }
    ensures moves { IfOk result (λ on. on ≡ true → reader.old.at < reader.new.at) }
{
    let at = reader.offset();
    let next = match reader.next() {
        Ok(next) => next,
        Err(fault) => {
            refusals.push(Refusal { fault, at })?;
            return Ok(false);
        }
    };
    match next {
        Some(record) => {
            if let Err(fault) = obey(record, graph) {
                refusals.push(Refusal { fault, at })?;
            }
            Ok(true)
        }
        None => Ok(false),
    }
}

// Makes the change that a record asks for, or checks its query.
fn obey<G: Graph>(record: Record, graph: &mut G) -> Result<(), Fault>
    requires { admits Loading «record» ≡ true }
    ensures { (at : ℕ) (rs : List Refused) → elim result [
      | Ok _ ↦ Obeys (G.Graph.graph graph.old) «record».entry at rs (G.Graph.graph graph.new) rs
      | Err f ↦ Obeys (G.Graph.graph graph.old) «record».entry at rs (G.Graph.graph graph.new) (rs ++ refusal f at ∷ [])
    ] }
{
    match record {
        Record::Change(change) => {
            apply(graph, change)?;
            Ok(())
        }
        Record::Query(text) => {
            parse(text)?;
            Ok(())
        }
        Record::Sizes(_, _) => unreachable(),
    }
}
