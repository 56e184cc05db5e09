// The edge list: sizes at their edges, each refusal, and the caller's memory.
use graph::{Edge, EdgeList, Fault, Graph, ListSizes, Put, SizeFault, Strike};
use std::test::*;

fn edge(from: u16, label: u8, to: u16) -> Edge {
    Edge { from, label, to }
}

#[test]
fn sizes_at_their_edges(rt: HostRuntime) -> Result<(), Fail> {
    assert_eq!(rt; ListSizes::new(0, 1).err(), Some(SizeFault::Nodes));
    assert_eq!(rt; ListSizes::new(1, 1).err(), None);
    assert_eq!(rt; ListSizes::new(1024, 26).err(), None);
    assert_eq!(rt; ListSizes::new(1025, 26).err(), Some(SizeFault::Nodes));
    assert_eq!(rt; ListSizes::new(1, 0).err(), Some(SizeFault::Labels));
    assert_eq!(rt; ListSizes::new(1, 27).err(), Some(SizeFault::Labels));
    assert_eq!(rt; ListSizes::new(0, 27).err(), Some(SizeFault::Nodes));
    Ok(())
}

#[test]
fn refusals_of_an_edge_list(rt: HostRuntime) -> Result<(), Fail> {
    let mut memory = [edge(9, 9, 9); 2];
    let Ok(sizes) = ListSizes::new(5, 3) else {
        return Err(Fail::new("sizes"));
    };
    let mut list = EdgeList::new(sizes, &mut memory);
    assert_eq!(rt; list.put(edge(5, 3, 0)), Err(Fault::Node));
    assert_eq!(rt; list.put(edge(0, 0, 5)), Err(Fault::Node));
    assert_eq!(rt; list.put(edge(4, 3, 4)), Err(Fault::Label));
    assert_eq!(rt; list.put(edge(0, 0, 1)), Ok(Put::New));
    assert_eq!(rt; list.put(edge(0, 0, 1)), Ok(Put::There));
    assert_eq!(rt; list.put(edge(4, 2, 4)), Ok(Put::New));
    assert_eq!(rt; list.put(edge(0, 1, 1)), Err(Fault::Full));
    assert_eq!(rt; list.put(edge(0, 0, 1)), Ok(Put::There));
    assert!(rt; list.edge_count() == 2 && list.capacity() == 2);
    assert_eq!(rt; list.strike(edge(0, 5, 9)), Err(Fault::Node));
    assert_eq!(rt; list.strike(edge(0, 5, 1)), Err(Fault::Label));
    assert_eq!(rt; list.strike(edge(0, 1, 1)), Ok(Strike::NotThere));
    assert_eq!(rt; list.strike(edge(4, 2, 4)), Ok(Strike::Gone));
    assert!(rt; list.edge_count() == 1);
    Ok(())
}

#[test]
fn memory_of_an_edge_list(rt: HostRuntime) -> Result<(), Fail> {
    let mut memory = [edge(9, 9, 9); 4];
    let Ok(sizes) = ListSizes::new(5, 3) else {
        return Err(Fail::new("sizes"));
    };
    let mut list = EdgeList::new(sizes, &mut memory);
    assert_eq!(rt; list.put(edge(0, 0, 1)), Ok(Put::New));
    assert_eq!(rt; list.put(edge(0, 0, 3)), Ok(Put::New));
    assert_eq!(rt; list.put(edge(0, 0, 2)), Ok(Put::New));
    assert_eq!(rt; list.strike(edge(0, 0, 1)), Ok(Strike::Gone));
    assert!(rt; memory[0].to == 2 && memory[1].to == 3 && memory[2].to == 2 && memory[3].to == 9);
    Ok(())
}

#[test]
fn follow_takes_all_numbers(rt: HostRuntime) -> Result<(), Fail> {
    let mut memory = [edge(0, 0, 0); 4];
    let Ok(sizes) = ListSizes::new(5, 3) else {
        return Err(Fail::new("sizes"));
    };
    let mut list = EdgeList::new(sizes, &mut memory);
    assert_eq!(rt; list.put(edge(1, 2, 4)), Ok(Put::New));
    assert_eq!(rt; list.put(edge(1, 2, 0)), Ok(Put::New));
    assert_eq!(rt; list.follow(1, 2, 0), Some(0));
    assert_eq!(rt; list.follow(1, 2, 1), Some(4));
    assert_eq!(rt; list.follow(1, 2, 4), Some(4));
    assert_eq!(rt; list.follow(1, 2, 5), None);
    assert_eq!(rt; list.follow(1, 1, 0), None);
    assert_eq!(rt; list.follow(65535, 255, 65535), None);
    Ok(())
}
