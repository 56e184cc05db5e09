// The order in which the atoms of a query are reached.
#![tactic(auto)]

ghost use Rattle.std.specs.Prelude.{◌≡◌, ℕ, ◌<◌, ◌≤◌, length, None, IfNone, IfSome, slice_index_or};
ghost use Rattle.shapes.specs.Checks.{of, Cyclic, Unconnected, Absent};
ghost use Rattle.order.specs.Orders.{Chosen, Ordered};
ghost use Rattle.order.specs.Ranks.{ranks};
ghost use Rattle.order.specs.Steps.{Hangs, Open, seen_at};

use shapes::Ends;

// How an atom is reached.
#[derive(Clone, Copy, Default)]
pub struct Step {
    pub atom: usize,
    // The rank of the parent, the variable that is shared with it, and the other one.
    pub parent: usize,
    pub shared: u8,
    pub fresh: u8,
}

// The order in which atoms are reached. Arrays, since the engine has no heap.
#[derive(Clone, Copy)]
pub struct Order {
    // By rank.
    pub steps: [Step; 8],
    // The rank of each atom.
    pub rank: [Option<usize>; 8],
}

// How an atom is reached from what is seen, if one of its variables is.
fn step_to(atom: usize, a: Ends, seen: &[Option<usize>; 256]) -> Option<Step>
    ensures none { IfNone result ((seen_at seen.now a.first ≡ None) × (seen_at seen.now a.second ≡ None)) }
    ensures some { IfSome result (λ s. (s.atom ≡ atom) × Hangs a.first a.second s seen.now) }
{
    if let Some(parent) = seen[a.first as usize] {
        return Some(Step {
            atom,
            parent,
            shared: a.first,
            fresh: a.second,
        });
    }
    let parent = seen[a.second as usize]?;
    Some(Step {
        atom,
        parent,
        shared: a.second,
        fresh: a.first,
    })
}

// The step to the earliest atom that has no rank yet and has a variable that is seen.
// That there are at most eight is asked here too, since the slice is handed on as it is.
fn next_step(atoms: &[Ends], rank: &[Option<usize>; 8], seen: &[Option<usize>; 256]) -> Option<Step>
    requires { length atoms.now ≤ 8 }
    ensures none { IfNone result ((d : ℕ) → d < length atoms.now → Open (of atoms.now) rank.now seen.now d → ⊥) }
    ensures some { IfSome result (λ s.
        (s.atom < length atoms.now) × (slice_index_or rank.now s.atom None ≡ None)
        × Hangs ((of atoms.now).first s.atom) ((of atoms.now).second s.atom) s seen.now
        × ((d : ℕ) → d < s.atom → Open (of atoms.now) rank.now seen.now d → ⊥)) }
{
    for (i, a) in atoms.iter().enumerate() {
        if rank[i].is_none() {
            if let Some(step) = step_to(i, *a, seen) {
                return Some(step);
            }
        }
    }
    None
}

// The atoms in the order in which they are reached from the variable `start`.
pub fn reach(atoms: &[Ends], start: u8) -> Order
    requires some { 0 < length atoms.now }
    requires few { length atoms.now ≤ 8 }
    requires used { Absent atoms.now start → ⊥ }
    requires acyclic { (i : ℕ) → i < length atoms.now → Cyclic atoms.now i → ⊥ }
    requires connected { (i : ℕ) → i < length atoms.now → Unconnected atoms.now i → ⊥ }
    ensures ordered { Ordered (of atoms.now) (length atoms.now) start (ranks result) }
    ensures chosen { Chosen (of atoms.now) (length atoms.now) start (ranks result) }
{
    let mut steps = [Step::default(); 8];
    let mut rank = [None; 8];
    let mut seen = [None; 256];
    seen[start as usize] = Some(0);
    for (k, place) in steps.iter_mut().enumerate() {
        let Some(step) = next_step(atoms, &rank, &seen) else {
            break;
        };
        *place = step;
        rank[step.atom] = Some(k);
        seen[step.fresh as usize] = Some(k);
    }
    Order { steps, rank }
}
