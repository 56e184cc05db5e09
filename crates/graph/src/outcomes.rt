// What an accepted put answers.
#[derive(Clone, Copy, Debug, PartialEq, Eq)]
pub enum Put {
    // The edge was not in the graph, and is now.
    New,
    // The edge was in the graph already.
    There,
}

// What an accepted strike answers.
#[derive(Clone, Copy, Debug, PartialEq, Eq)]
pub enum Strike {
    // The edge was in the graph, and is no more.
    Gone,
    // The edge was not in the graph.
    NotThere,
}

// Why a put or a strike is refused.
#[derive(Clone, Copy, Debug, PartialEq, Eq)]
pub enum Fault {
    // One of the edge's nodes is not below the number of nodes.
    Node,
    // The edge's label is not below the number of labels.
    Label,
    // The edge is new, and the graph has as many edges as it can hold.
    Full,
}

// Which of a graph's sizes is out of range.
#[derive(Clone, Copy, Debug, PartialEq, Eq)]
pub enum SizeFault {
    Nodes,
    Labels,
}
