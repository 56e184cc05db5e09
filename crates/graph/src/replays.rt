ghost use Rattle.std.specs.Prelude.{◌≡◌};
ghost use Rattle.graph.specs.Runs.{Replays, news, gones};

use super::changes::{Change, Changed, apply};
use super::interface::Graph;
use super::outcomes::{Fault, Put, Strike};

// How many edges came and went.
#[derive(Clone, Copy)]
pub struct Tally {
    // The puts that answered new.
    pub new: usize,
    // The strikes that answered gone.
    pub gone: usize,
}

// Makes changes to a graph, one after the other, and counts those that had an effect.
pub fn replay<G: Graph>(graph: &mut G, changes: &[Change]) -> Tally
    ensures { Replays (G.Graph.graph graph.old) changes.now result.new result.gone (G.Graph.graph graph.new) }
{
    let mut tally = Tally { new: 0, gone: 0 };
    for change in changes {
        let effect = effect_of(apply(graph, *change));
        tally.new += effect.new;
        tally.gone += effect.gone;
    }
    tally
}

// What one answer adds to the tally.
fn effect_of(answer: Result<Changed, Fault>) -> Tally
    ensures new { result.new ≡ news answer }
    ensures gone { result.gone ≡ gones answer }
{
    match answer {
        Ok(Changed::Put(Put::New)) => Tally { new: 1, gone: 0 },
        Ok(Changed::Strike(Strike::Gone)) => Tally { new: 0, gone: 1 },
        _ => Tally { new: 0, gone: 0 },
    }
}
