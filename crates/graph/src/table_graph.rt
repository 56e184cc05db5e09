ghost use Rattle.std.specs.Prelude.{◌≡◌, ◌*◌, Err, ◌≢◌};
ghost use Rattle.meaning.specs.Graphs.{Legal, New};
ghost use Rattle.graph.specs.Calls.{Puts};
ghost use Rattle.graph.specs.Edges.{holds};
ghost use Rattle.graph.specs.Rows.{in_table};
ghost use Rattle.graph.specs.Tables.{graph_of_table};
ghost use Rattle.graph.specs.declared.outcomes.Fault.TheVariants.{Full};

use super::edges::Edge;
use super::interface::{Graph, check_edge};
use super::outcomes::{Fault, Put, Strike};
use super::sizes::TableSizes;
use super::table::SmallTable;
use bits::{has, lowest};
use meaning::{LabelId, NodeId};

impl SmallTable {
    // A graph without edges.
    pub fn new(sizes: TableSizes) -> SmallTable
        ensures { New (graph_of_table result) sizes.nodes sizes.labels (sizes.nodes * sizes.nodes * sizes.labels) }
    {
        SmallTable {
            words: [0; 1664],
            len: 0,
            sizes,
        }
    }

    // Whether the table has an edge.
    fn test(&self, e: Edge) -> bool
        requires { Legal self.now.sizes.nodes self.now.sizes.labels e.from e.label e.to }
        ensures { result ≡ holds (in_table self.now.sizes.nodes self.now.sizes.labels self.now.words) e }
    {
        has(self.row(e.from, e.label), e.to as usize)
    }
}

impl Graph for SmallTable {
    ghost graph = { graph_of_table };

    fn node_count(&self) -> NodeId {
        self.sizes.nodes
    }

    fn label_count(&self) -> LabelId {
        self.sizes.labels
    }

    fn capacity(&self) -> usize {
        self.sizes.nodes as usize * self.sizes.nodes as usize * self.sizes.labels as usize
    }

    fn edge_count(&self) -> usize {
        self.len
    }

    // A table has room for every legal edge, so put is never refused for want of room.
    fn put(&mut self, e: Edge) -> Result<Put, Fault>
        ensures puts { Puts (graph_of_table self.old) e result (graph_of_table self.new) }
        ensures roomy { result ≢ Err Full }
    {
        check_edge(self.sizes.nodes, self.sizes.labels, e)?;
        if self.test(e) {
            return Ok(Put::There);
        }
        self.mark(e);
        Ok(Put::New)
    }

    fn strike(&mut self, e: Edge) -> Result<Strike, Fault> {
        check_edge(self.sizes.nodes, self.sizes.labels, e)?;
        if !self.test(e) {
            return Ok(Strike::NotThere);
        }
        self.unmark(e);
        Ok(Strike::Gone)
    }

    fn follow(&self, node: NodeId, label: LabelId, bound: NodeId) -> Option<NodeId> {
        if node >= self.sizes.nodes || label >= self.sizes.labels {
            return None;
        }
        match lowest(self.row(node, label), bound as usize) {
            Some(to) if to < self.sizes.nodes as usize => Some(to as NodeId),
            _ => None,
        }
    }
}
