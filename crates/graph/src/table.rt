ghost use Rattle.std.specs.Prelude.{◌≡◌, ℕ, ◌+◌, ◌-◌, ◌*◌, ◌<◌, ◌≤◌, true, false, length, if◌then◌else◌, slice_index};
ghost use Rattle.bits.specs.Bits.{bit};
ghost use Rattle.meaning.specs.Graphs.{Legal, count};
ghost use Rattle.graph.specs.Edges.{holds, is};
ghost use Rattle.graph.specs.Rows.{in_table};

use super::edges::Edge;
use super::sizes::TableSizes;
use bits::{cleared, marked};
use meaning::{LabelId, NodeId};

// A graph of at most 64 nodes that keeps a bit for each edge, in a word for each label and node.
#[derive(Drop)]
pub struct SmallTable {
    pub(crate) words: [u64; 1664],
    pub(crate) len: usize,
    pub(crate) sizes: TableSizes,
    ghost wide: { length words ≡ 1664 },
    ghost counted: { count sizes.nodes sizes.labels (in_table sizes.nodes sizes.labels words) ≡ len },
}

impl SmallTable {
    // The word of the edges from a node under a label.
    pub(crate) fn row(&self, node: NodeId, label: LabelId) -> u64
        requires node { node < self.now.sizes.nodes }
        requires label { label < self.now.sizes.labels }
        ensures { result ≡ slice_index self.now.words (label * 64 + node) }
    {
        self.words[label as usize * 64 + node as usize]
    }

    // Sets the bit of an edge that the table lacks.
    pub(crate) fn mark(&mut self, e: Edge)
        requires legal { Legal self.old.sizes.nodes self.old.sizes.labels e.from e.label e.to }
        requires new { holds (in_table self.old.sizes.nodes self.old.sizes.labels self.old.words) e ≡ false }
        ensures words { (u a v : ℕ) → in_table self.new.sizes.nodes self.new.sizes.labels self.new.words u a v ≡ (if is e u a v then true else in_table self.old.sizes.nodes self.old.sizes.labels self.old.words u a v) }
        ensures sizes { self.new.sizes ≡ self.old.sizes }
    {
        let i = e.label as usize * 64 + e.from as usize;
        self.words[i] = marked(self.words[i], e.to as usize);
        self.len += 1;
    }

    // Clears the bit of an edge that the table has.
    pub(crate) fn unmark(&mut self, e: Edge)
        requires old { holds (in_table self.old.sizes.nodes self.old.sizes.labels self.old.words) e ≡ true }
        ensures words { (u a v : ℕ) → in_table self.new.sizes.nodes self.new.sizes.labels self.new.words u a v ≡ (if is e u a v then false else in_table self.old.sizes.nodes self.old.sizes.labels self.old.words u a v) }
        ensures sizes { self.new.sizes ≡ self.old.sizes }
    {
        let i = e.label as usize * 64 + e.from as usize;
        self.words[i] = cleared(self.words[i], e.to as usize);
        self.len -= 1;
    }
}
