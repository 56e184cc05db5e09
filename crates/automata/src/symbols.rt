use meaning::LabelId;

// What one position of an expression reads.
#[derive(Clone, Copy)]
pub enum Symbol {
    // The label of that number.
    Label(LabelId),
    // Any label of the graph.
    Any,
}
