ghost use Rattle.std.specs.Prelude.{◌+◌, IfOk};
ghost use Rattle.graph.specs.Edges.{edge};
ghost use Rattle.wiring.specs.Listing.{Lists, Wire, WireBelow};

use graph::{Edge, Graph, Successors};
use meaning::{LabelId, NodeId};
use std::alloc::{AllocError, Global};

// The edges of a graph, rising.
pub fn wires<G: Graph>(graph: &G, heap: Global) -> Result<Vec<Edge>, AllocError>
    ensures { IfOk result (λ v. Lists (Wire (G.Graph.graph graph.now)) v.items) }
{
    let mut list = Vec::new(heap);
    for node in 0..graph.node_count() {
        push_node(graph, node, &mut list)?;
    }
    Ok(list)
}

// Adds the edges from a node to a list of those from the nodes below it.
fn push_node<G: Graph>(graph: &G, node: NodeId, list: &mut Vec<Edge>) -> Result<(), AllocError>
    ensures { IfOk result (λ _.
        Lists (WireBelow (G.Graph.graph graph.now) (edge node 0 0)) list.old.items
        → Lists (WireBelow (G.Graph.graph graph.now) (edge (node + 1) 0 0)) list.new.items) }
{
    for label in 0..graph.label_count() {
        push_row(graph, node, label, list)?;
    }
    Ok(())
}

// Adds the edges from a node under a label to a list of those before them.
fn push_row<G: Graph>(
    graph: &G,
    node: NodeId,
    label: LabelId,
    list: &mut Vec<Edge>,
) -> Result<(), AllocError>
    ensures { IfOk result (λ _.
        Lists (WireBelow (G.Graph.graph graph.now) (edge node label 0)) list.old.items
        → Lists (WireBelow (G.Graph.graph graph.now) (edge node (label + 1) 0)) list.new.items) }
{
    for to in Successors::of(graph, node, label) {
        list.push(Edge {
            from: node,
            label,
            to,
        })?;
    }
    Ok(())
}
