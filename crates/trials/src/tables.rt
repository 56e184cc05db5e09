// The small table at its edges, and one generic function on both kinds of graph.
use graph::{Change, Edge, EdgeList, Graph, ListSizes, SizeFault, SmallTable, TableSizes, replay};
use std::process::Abort;
use std::test::*;

fn edge(from: u16, label: u8, to: u16) -> Edge {
    Edge { from, label, to }
}

#[test]
fn small_sizes_at_their_edges(rt: HostRuntime) -> Result<(), Fail> {
    assert_eq!(rt; TableSizes::new(0, 1).err(), Some(SizeFault::Nodes));
    assert_eq!(rt; TableSizes::new(1, 1).err(), None);
    assert_eq!(rt; TableSizes::new(63, 26).err(), None);
    assert_eq!(rt; TableSizes::new(64, 26).err(), None);
    assert_eq!(rt; TableSizes::new(65, 26).err(), Some(SizeFault::Nodes));
    assert_eq!(rt; TableSizes::new(64, 0).err(), Some(SizeFault::Labels));
    assert_eq!(rt; TableSizes::new(64, 27).err(), Some(SizeFault::Labels));
    Ok(())
}

// The corners of a table of so many nodes, with all labels: each can be put, followed and struck.
fn corners(rt: &impl Abort, nodes: u16) -> Result<(), Fail> {
    assert!(rt; nodes >= 1);
    let last = nodes - 1;
    let Ok(sizes) = TableSizes::new(nodes, 26) else {
        return Err(Fail::new("sizes"));
    };
    let mut table = SmallTable::new(sizes);
    assert!(rt; table.put(edge(last, 25, last)).is_ok());
    assert!(rt; table.put(edge(nodes, 25, last)).is_err());
    assert!(rt; table.put(edge(last, 26, last)).is_err());
    assert!(rt; table.edge_count() == 1);
    assert_eq!(rt; table.follow(last, 25, 0), Some(last));
    assert_eq!(rt; table.follow(last, 25, last), Some(last));
    assert_eq!(rt; table.follow(last, 25, nodes), None);
    assert_eq!(rt; table.follow(last, 24, 0), None);
    assert_eq!(rt; table.follow(nodes, 25, 0), None);
    assert_eq!(rt; table.follow(65535, 255, 65535), None);
    assert!(rt; table.strike(edge(last, 25, last)).is_ok());
    assert!(rt; table.edge_count() == 0);
    assert_eq!(rt; table.follow(last, 25, 0), None);
    Ok(())
}

#[test]
fn tables_of_1_63_and_64_nodes(rt: HostRuntime) -> Result<(), Fail> {
    corners(&rt, 1)?;
    corners(&rt, 63)?;
    corners(&rt, 64)
}

// Three new edges, one put twice, one struck, one struck that is not there, two refused.
const CHANGES: [Change; 8] = [
    Change::Put(Edge {
        from: 0,
        label: 2,
        to: 4,
    }),
    Change::Put(Edge {
        from: 0,
        label: 2,
        to: 1,
    }),
    Change::Put(Edge {
        from: 0,
        label: 2,
        to: 4,
    }),
    Change::Put(Edge {
        from: 4,
        label: 0,
        to: 0,
    }),
    Change::Strike(Edge {
        from: 0,
        label: 2,
        to: 1,
    }),
    Change::Strike(Edge {
        from: 1,
        label: 1,
        to: 1,
    }),
    Change::Put(Edge {
        from: 5,
        label: 0,
        to: 0,
    }),
    Change::Strike(Edge {
        from: 0,
        label: 3,
        to: 0,
    }),
];

fn replays<G: Graph>(rt: &impl Abort, graph: &mut G) -> Result<(), Fail> {
    let tally = replay(graph, &CHANGES);
    assert!(rt; tally.new == 3 && tally.gone == 1);
    assert!(rt; graph.edge_count() == 2);
    assert_eq!(rt; graph.follow(0, 2, 0), Some(4));
    assert_eq!(rt; graph.follow(4, 0, 0), Some(0));
    Ok(())
}

#[test]
fn both_kinds_replay_alike(rt: HostRuntime) -> Result<(), Fail> {
    let Ok(small) = TableSizes::new(5, 3) else {
        return Err(Fail::new("sizes"));
    };
    let mut table = SmallTable::new(small);
    replays(&rt, &mut table)?;
    assert!(rt; table.capacity() == 75);
    let Ok(sizes) = ListSizes::new(5, 3) else {
        return Err(Fail::new("sizes"));
    };
    let mut memory = [edge(0, 0, 0); 3];
    let mut list = EdgeList::new(sizes, &mut memory);
    replays(&rt, &mut list)
}
