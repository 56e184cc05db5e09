ghost use Rattle.std.specs.Prelude.{◌≡◌, length, if◌then◌else◌};
ghost use Rattle.meaning.specs.Graphs.{New};
ghost use Rattle.graph.specs.Calls.{Puts, Strikes};
ghost use Rattle.graph.specs.Edges.{leads, lowered};
ghost use Rattle.graph.specs.Lists.{graph_of_list};
ghost use Rattle.graph.specs.Memory.{PutIn, StruckFrom};

use super::edges::Edge;
use super::interface::{Graph, check_edge};
use super::list::EdgeList;
use super::outcomes::{Fault, Put, Strike};
use super::sizes::ListSizes;
use meaning::{LabelId, NodeId};

impl<'a> EdgeList<'a> {
    // A graph without edges over the memory `slots`, which keeps what it holds.
    pub fn new(sizes: ListSizes, slots: &'a mut [Edge]) -> EdgeList<'a>
        ensures graph { New (graph_of_list result) sizes.nodes sizes.labels (length slots.old) }
        ensures empty { result.len ≡ 0 }
        ensures memory { result.slots.now ≡ slots.old }
        ensures lender { result.slots.ghost_name ≡ slots.entry.ghost_name }
    {
        EdgeList {
            slots,
            len: 0,
            sizes,
        }
    }
}

impl<'a> Graph for EdgeList<'a> {
    ghost graph = { graph_of_list };

    fn node_count(&self) -> NodeId {
        self.sizes.nodes
    }

    fn label_count(&self) -> LabelId {
        self.sizes.labels
    }

    fn capacity(&self) -> usize {
        self.slots.len()
    }

    fn edge_count(&self) -> usize {
        self.len
    }

    fn put(&mut self, e: Edge) -> Result<Put, Fault>
        ensures puts { Puts (graph_of_list self.old) e result (graph_of_list self.new) }
        ensures memory { PutIn self.old.slots.now self.old.len e result self.new.slots.now }
        ensures lender { self.new.slots.ghost_name ≡ self.old.slots.ghost_name }
    {
        check_edge(self.sizes.nodes, self.sizes.labels, e)?;
        if let Some(_) = self.place(e) {
            return Ok(Put::There);
        }
        if self.is_full() {
            return Err(Fault::Full);
        }
        self.append(e);
        Ok(Put::New)
    }

    fn strike(&mut self, e: Edge) -> Result<Strike, Fault>
        ensures strikes { Strikes (graph_of_list self.old) e result (graph_of_list self.new) }
        ensures memory { StruckFrom self.old.slots.now self.old.len e result self.new.slots.now }
        ensures lender { self.new.slots.ghost_name ≡ self.old.slots.ghost_name }
    {
        check_edge(self.sizes.nodes, self.sizes.labels, e)?;
        match self.place(e) {
            Some(i) => {
                self.remove(i);
                Ok(Strike::Gone)
            }
            None => Ok(Strike::NotThere),
        }
    }

    fn follow(&self, node: NodeId, label: LabelId, bound: NodeId) -> Option<NodeId> {
        let mut best = None;
        for e in &self.slots[..self.len] {
            best = lower(best, *e, node, label, bound);
        }
        best
    }
}

// The lower of the best so far and the end of `e`, if `e` leads from the node under the label to the bound or beyond.
fn lower(
    best: Option<NodeId>,
    e: Edge,
    node: NodeId,
    label: LabelId,
    bound: NodeId,
) -> Option<NodeId>
    ensures { result ≡ (if leads e node label bound then lowered best e.to else best) }
{
    if e.from == node && e.label == label && e.to >= bound {
        match best {
            Some(v) => Some(v.min(e.to)),
            None => Some(e.to),
        }
    } else {
        best
    }
}
