ghost use Rattle.std.specs.Prelude.{◌≡◌, Ok, Err};
ghost use Rattle.meaning.specs.Graphs.{Within};
ghost use Rattle.graph.specs.Calls.{BadSizes};

use super::outcomes::SizeFault;
use meaning::{LabelId, NodeId};

// Checked sizes of a graph that may have at most so many nodes.
#[derive(Clone, Copy)]
pub struct Sizes<const MOST: NodeId> {
    pub(crate) nodes: NodeId,
    pub(crate) labels: LabelId,
    ghost sized: { Within MOST nodes labels },
}

// Sizes of an edge list.
pub type ListSizes = Sizes<1024>;

// Sizes of a small table.
pub type TableSizes = Sizes<64>;

impl<const MOST: NodeId> Sizes<MOST> {
    pub fn new(nodes: u16, labels: u16) -> Result<Sizes<MOST>, SizeFault>
        ensures { elim result [ Ok s ↦ (s.nodes ≡ nodes) × (s.labels ≡ labels) | Err f ↦ BadSizes MOST nodes labels f ] }
    {
        if nodes < 1 || nodes > MOST {
            return Err(SizeFault::Nodes);
        }
        if labels < 1 || labels > 26 {
            return Err(SizeFault::Labels);
        }
        Ok(Sizes {
            nodes,
            labels: labels as LabelId,
        })
    }
}
