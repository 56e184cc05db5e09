ghost use Rattle.std.specs.Prelude.{◌≡◌, ℕ, ◌<◌, ◌≤◌, List, length, Some, slice_index};
ghost use Rattle.parse.specs.Parsing.{Accepted};

use meaning::NodeId;
use parse::Parsed;

// A query that some text is parsed to, and how far its listing has come.
#[derive(Drop)]
pub struct Query {
    pub(crate) parsed: Parsed,
    // The number of nodes of the graph that is listed from; 0 before.
    pub(crate) nodes: NodeId,
    // The last tuple that was given, by the places of the head.
    pub(crate) last: Option<[NodeId; 26]>,
    // It cannot be that no text is parsed to the query.
    ghost held: { ((xs : List ℕ) → length xs ≤ 512 → Accepted xs parsed → ⊥) → ⊥ },
    // A graph has at most 1,024 nodes, and the nodes of the last tuple are its.
    ghost sized: { nodes ≤ 1024 },
    ghost inside: { (t : List ℕ) (i : ℕ) → (last ≡ Some t) × (i < parsed.query.head.count) → slice_index t i < nodes },
}

// The states of a record. Only the calls make them; they can be neither copied nor let go.
pub struct Blank(pub(crate) ());

pub struct Opened(pub(crate) ());

pub struct Listing(pub(crate) ());
