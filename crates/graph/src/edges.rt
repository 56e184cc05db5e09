ghost use Rattle.std.specs.Prelude.{◌≡◌, Some};
ghost use Rattle.graph.specs.Lines.{letter, wire_text};

use meaning::{LabelId, NodeId};
use std::fmt;

// An edge from a node, under a label, to a node.
#[derive(Clone, Copy, Debug, Default, PartialEq, Eq)]
pub struct Edge {
    pub from: NodeId,
    pub label: LabelId,
    pub to: NodeId,
}

impl fmt::Display for Edge {
    ghost output = { λ e. Some (wire_text e) };

    fn fmt<W: fmt::Write>(&self, f: &mut fmt::Formatter<W>) -> fmt::Result {
        let from = self.from;
        let label = letter_of(self.label);
        let to = self.to;
        write!(f, "{from} {label} {to}")
    }
}

// The letter of a label.
fn letter_of(label: LabelId) -> char
    ensures { result ≡ letter label }
{
    if label < 26 {
        char::from(b'a' + label)
    } else {
        '?'
    }
}
