ghost use Rattle.std.specs.Prelude.{◌≡◌, ◌+◌, ◌*◌, slice_index};
ghost use Rattle.graph.specs.Edges.{edge};
ghost use Rattle.wiring.specs.Records.{Decodes, Parses};

use super::faults::Fault;
use graph::{Change, Edge};

// A record of a wiring file.
#[derive(Clone, Copy)]
pub enum Record<'a> {
    // How many nodes and labels the graph has.
    Sizes(u16, u16),
    // A wire put or struck.
    Change(Change),
    // The text of a query.
    Query(&'a [u8]),
}

// Takes the record at the front of `bytes`, and hands on the bytes behind it.
pub(crate) fn parse(bytes: &[u8]) -> Result<(Record<'_>, &[u8]), Fault>
    ensures { Parses bytes.now result }
{
    let [l0, l1, k0, k1, tail @ ..] = bytes else {
        return Err(Fault::Cut);
    };
    let len = u16::from_le_bytes([*l0, *l1]) as usize;
    if tail.len() < len {
        return Err(Fault::Cut);
    }
    let (payload, rest) = tail.split_at(len);
    let record = decode(u16::from_le_bytes([*k0, *k1]), payload)?;
    Ok((record, rest))
}

// What a payload says under its kind.
fn decode(kind: u16, payload: &[u8]) -> Result<Record<'_>, Fault>
    ensures { Decodes kind payload.now result }
{
    match (kind, payload) {
        (1, [n0, n1, q0, q1]) => Ok(Record::Sizes(
            u16::from_le_bytes([*n0, *n1]),
            u16::from_le_bytes([*q0, *q1]),
        )),
        (2, [f0, f1, label, t0, t1]) => Ok(Record::Change(Change::Put(wire_between(
            [*f0, *f1],
            *label,
            [*t0, *t1],
        )))),
        (3, [f0, f1, label, t0, t1]) => Ok(Record::Change(Change::Strike(wire_between(
            [*f0, *f1],
            *label,
            [*t0, *t1],
        )))),
        (4, text) => Ok(Record::Query(text)),
        _ => Err(Fault::Malformed),
    }
}

// The edge between two nodes, each in two bytes.
fn wire_between(from: [u8; 2], label: u8, to: [u8; 2]) -> Edge
    ensures { result ≡ edge (slice_index from 0 + slice_index from 1 * 256) label (slice_index to 0 + slice_index to 1 * 256) }
{
    Edge {
        from: u16::from_le_bytes(from),
        label,
        to: u16::from_le_bytes(to),
    }
}
