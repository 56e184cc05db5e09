ghost use Rattle.std.specs.Prelude.{◌<◌, ◌≤◌, IfSome};
ghost use Rattle.meaning.specs.Tuples.{Lowest, Within, noted_of, last_of};
ghost use Rattle.search.specs.Heads.{placed, relations};
ghost use Rattle.search.specs.Places.{Fits};

use super::tables::Tables;
use meaning::NodeId;

// The lowest tuple of nodes that fits the tables, above `last` if there is one.
// The place and its node are counted by hand, since the search goes back over places and over nodes.
pub fn lowest(tables: &Tables, last: Option<[NodeId; 26]>) -> Option<[NodeId; 26]>
    requires head { (0 < tables.now.places.now.free) × (tables.now.places.now.free ≤ 26) }
    requires nodes { tables.now.rows.count ≤ 1024 }
    requires inside { IfSome last (Within tables.now.rows.count tables.now.places.now.free) }
    ensures { Lowest (Fits (placed tables.now.places.now) (relations tables.now) tables.now.rows.count tables.now.places.now.free) tables.now.places.now.free (noted_of last) (last_of last) result }
{
    let nodes = tables.rows.count;
    let free = tables.places.free;
    let mut cur: [NodeId; 26] = [0; 26];
    let mut at: usize = 0;
    if let Some(tuple) = last {
        cur = tuple;
        while at + 1 < free && tables.goes(at, &tuple) {
            at += 1;
        }
        cur[at] += 1;
    }
    'search: loop {
        while (cur[at] as usize) < nodes {
            if tables.goes(at, &cur) {
                if at + 1 == free {
                    break 'search Some(cur);
                }
                at += 1;
                cur[at] = 0;
                continue 'search;
            }
            cur[at] += 1;
        }
        if at == 0 {
            break 'search None;
        }
        at -= 1;
        cur[at] += 1;
    }
}
