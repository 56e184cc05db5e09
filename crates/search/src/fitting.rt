ghost use Rattle.std.specs.Prelude.{◌≡◌, ◌<◌, ◌≤◌, if◌then◌else◌, Decides};
ghost use Rattle.joins.specs.Sides.{is_first};
ghost use Rattle.search.specs.Heads.{PairAt, placed, relations};
ghost use Rattle.search.specs.Places.{Goes, Stands};

use super::tables::Tables;
use bits::test;
use joins::Side;
use meaning::NodeId;

impl Tables<'_> {
    // Whether atom c keeps the pair (u, v). That there is such an atom is asked of each call: a number of its own type would be unpacked in each body.
    fn has(&self, c: usize, u: usize, v: usize) -> bool
        requires { c < self.now.places.now.atoms }
        ensures { result ≡ relations self.now c u v }
    {
        let rows = self.rows;
        if u >= rows.count || v >= rows.count {
            return false;
        }
        test(
            self.words,
            c * (rows.count * rows.width) + u * rows.width,
            v,
        )
    }

    // Whether atom c keeps the pair of x on the side and y on the other.
    fn has_on(&self, c: usize, side: Side, x: usize, y: usize) -> bool
        requires { c < self.now.places.now.atoms }
        ensures { result ≡ relations self.now c (if is_first side then x else y) (if is_first side then y else x) }
    {
        match side {
            Side::First => self.has(c, x, y),
            Side::Second => self.has(c, y, x),
        }
    }

    // Whether x stands on a side of some pair of atom c.
    fn stands(&self, c: usize, side: Side, x: usize) -> bool
        requires { c < self.now.places.now.atoms }
        ensures { Decides result (Stands (relations self.now) c (is_first side) x) }
    {
        (0..self.rows.count).any(|y| self.has_on(c, side, x, y))
    }

    // Whether atom c has its pair, if both its variables stand at the places 0 to k.
    fn pair_goes(&self, k: usize, cur: &[NodeId; 26], c: usize) -> bool
        requires free { self.now.places.now.free ≤ 26 }
        requires at { k < self.now.places.now.free }
        requires atom { c < self.now.places.now.atoms }
        ensures { Decides result (PairAt (placed self.now.places.now) (relations self.now) k cur.now c) }
    {
        let pair = self.places.pairs[c];
        match (pair.first, pair.second) {
            (Some(i), Some(j)) if i <= k && j <= k => self.has(c, cur[i] as usize, cur[j] as usize),
            _ => true,
        }
    }

    // Whether the nodes at the places 0 to k go together, as far as place k tells.
    pub(crate) fn goes(&self, k: usize, cur: &[NodeId; 26]) -> bool
        requires free { self.now.places.now.free ≤ 26 }
        requires at { k < self.now.places.now.free }
        ensures { Decides result (Goes (placed self.now.places.now) (relations self.now) k cur.now) }
    {
        // By number: it is an atom's.
        for c in 0..self.places.atoms {
            if !self.pair_goes(k, cur, c) {
                return false;
            }
        }
        if k > 0 {
            return true;
        }
        match self.places.root {
            Some(root) => self.stands(root.atom, root.side, cur[0] as usize),
            None => false,
        }
    }
}
