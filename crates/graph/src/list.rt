ghost use Rattle.std.specs.Prelude.{◌≡◌, ℕ, ◌+◌, ◌-◌, ◌<◌, ◌≤◌, true, false, length, Some, None, nat_le, slice_index_or, slice_set};
ghost use Rattle.meaning.specs.Graphs.{Legal, count};
ghost use Rattle.graph.specs.Edges.{among, blank, holds};
ghost use Rattle.graph.specs.declared.edges.Edge.{Edge};

use super::edges::Edge;
use super::sizes::ListSizes;

// A graph that keeps its edges in the first places of the caller's memory, and has room for as many as that memory has places.
// A slice with a length beside it, since the memory is the caller's.
#[derive(Drop)]
pub struct EdgeList<'a> {
    pub(crate) slots: &'a mut [Edge],
    pub(crate) len: usize,
    pub(crate) sizes: ListSizes,
    ghost within: { len ≤ length slots.now },
    ghost legal: { (e : Edge) → holds (among slots.now len) e ≡ true → Legal sizes.nodes sizes.labels e.from e.label e.to },
    ghost distinct: { (i : ℕ) → i < len → holds (among slots.now i) (slice_index_or slots.now i blank) ≡ false },
    ghost counted: { count sizes.nodes sizes.labels (among slots.now len) ≡ len },
}

impl<'a> EdgeList<'a> {
    // The place of an edge, if the list has it.
    pub(crate) fn place(&self, e: Edge) -> Option<usize>
        ensures { elim result [ None ↦ holds (among self.now.slots.now self.now.len) e ≡ false | Some i ↦ (i < self.now.len) × (slice_index_or self.now.slots.now i blank ≡ e) ] }
    {
        self.slots[..self.len].iter().position(|x| *x == e)
    }

    // Whether every place holds an edge.
    pub(crate) fn is_full(&self) -> bool
        ensures { result ≡ nat_le (length self.now.slots.now) self.now.len }
    {
        self.len >= self.slots.len()
    }

    // Writes a new edge into the next place. What stays as it was is said in each contract: no ghost field can compare two states.
    pub(crate) fn append(&mut self, e: Edge)
        requires room { self.old.len < length self.old.slots.now }
        requires legal { Legal self.old.sizes.nodes self.old.sizes.labels e.from e.label e.to }
        requires new { holds (among self.old.slots.now self.old.len) e ≡ false }
        ensures slots { self.new.slots.now ≡ slice_set self.old.slots.now self.old.len e }
        ensures len { self.new.len ≡ self.old.len + 1 }
        ensures sizes { self.new.sizes ≡ self.old.sizes }
        ensures lender { self.new.slots.ghost_name ≡ self.old.slots.ghost_name }
    {
        self.slots[self.len] = e;
        self.len += 1;
    }

    // Moves the last edge into place i.
    pub(crate) fn remove(&mut self, i: usize)
        requires { i < self.old.len }
        ensures slots { self.new.slots.now ≡ slice_set self.old.slots.now i (slice_index_or self.old.slots.now (self.old.len - 1) blank) }
        ensures len { self.new.len ≡ self.old.len - 1 }
        ensures sizes { self.new.sizes ≡ self.old.sizes }
        ensures lender { self.new.slots.ghost_name ≡ self.old.slots.ghost_name }
    {
        let last = self.slots[self.len - 1];
        self.slots[i] = last;
        self.len -= 1;
    }
}
