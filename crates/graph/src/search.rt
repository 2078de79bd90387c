// Bellman-Ford in place. One round relaxes every arc once; a round without a fall leaves the potentials, and after any other the climb
// from a node that fell looks for a cycle. A fall is stamped with its time: 131072 times the round's number, plus the arc's, plus 1.
// There is room for 2048 nodes, and those that the graph does not have are never reached.
ghost use Rattle.std.specs.Prelude.{◌≡◌, ◌<◌, ◌≤◌, length, OnSome, IsNone};
ghost use Rattle.walks.specs.Weight.{weight_of};
ghost use Rattle.walks.specs.Form.{Graph, CoefficientsInRange};
ghost use Rattle.walks.specs.SearchNumbers.{raised_all, start};
ghost use Rattle.walks.specs.SearchTerms.{Relaxed, raised_weight, Running};
ghost use Rattle.graph.specs.Search.{EndedAt, SearchFound};

use crate::climb::climb;
use crate::weight::weight;
use crate::{Coefficients, potentials};
use walks::Arcs;

// The potential of each node, its parent arc and 1, or 0, and the stamp of its last fall.
#[derive(Drop)]
struct Rounds {
    potential: [i64; 2048],
    parent: [usize; 2048],
    stamp: [usize; 2048],
}

impl Rounds {
    // Relaxes the arc e in the round that begins at b, unless its source has not fallen since the arc was relaxed last.
    fn relax(&mut self, arcs: Arcs<'_>, k: Coefficients, b: usize, e: usize) -> bool
        requires running { Running arcs.from.now arcs.to.now arcs.cost.now arcs.reward.now k.a k.b k.c
            self.old.potential self.old.parent self.old.stamp b e }
        requires e_in_bounds { e < length arcs.from.now }
        ensures { let g = arcs.entry in Relaxed g.from.now g.to.now (raised_weight k.a k.b k.c g.cost.now g.reward.now)
            (length g.from.now) (raised_all start self.old.potential) self.old.stamp
            (raised_all start self.new.potential) self.new.parent self.new.stamp b 2048 e result }
    {
        let u = usize::from(arcs.from[e]);
        if self.stamp[u] + 131072 <= b + e {
            return false;
        }
        let v = usize::from(arcs.to[e]);
        let x = potentials::sum_at(&self.potential, u, weight(arcs, k, e));
        if potentials::improves(&self.potential, v, x) {
            potentials::put(&mut self.potential, v, x);
            self.parent[v] = e + 1;
            self.stamp[v] = b + e + 1;
            return true;
        }
        false
    }

    // One round: each arc is relaxed once, up to one that makes a potential fall too low. A node that fell.
    // By itself, so that the lists and coefficients stay in registers.
    #[inline(never)]
    fn round(&mut self, arcs: Arcs<'_>, k: Coefficients, b: usize) -> Option<usize>
        requires { Running arcs.from.now arcs.to.now arcs.cost.now arcs.reward.now k.a k.b k.c
            self.old.potential self.old.parent self.old.stamp b 0 }
        ensures { let g = arcs.entry in EndedAt g.from.now g.to.now (raised_weight k.a k.b k.c g.cost.now g.reward.now)
            (length g.from.now) (raised_all start self.new.potential) self.new.parent self.new.stamp b 2048 result }
    {
        let mut fell = None;
        for e in 0..arcs.from.len() {
            if self.relax(arcs, k, b, e) {
                let v = usize::from(arcs.to[e]);
                fell = Some(v);
                if potentials::too_low(&self.potential, v) {
                    return fell;
                }
            }
        }
        fell
    }
}

// The number of arcs of a negative cycle, which stand at the front of cycle; or none, and the potentials stand at the front of potential.
pub(crate) fn search(
    arcs: Arcs<'_>,
    k: Coefficients,
    nodes: usize,
    potential: &mut [i64],
    cycle: &mut [usize],
) -> Option<usize>
    requires is_graph { Graph arcs.from.now arcs.to.now arcs.cost.now arcs.reward.now nodes }
    requires in_range { CoefficientsInRange k.a k.b k.c }
    requires potential_room { nodes ≤ length potential.old }
    requires cycle_room { nodes ≤ length cycle.old }
    ensures { let g = arcs.entry in SearchFound g.from.now g.to.now
        (weight_of k.a k.b k.c g.cost.now g.reward.now) nodes
        potential.old potential.new cycle.old cycle.new result }
{
    let mut rounds = Rounds {
        potential: [0; 2048],
        parent: [0; 2048],
        stamp: [0; 2048],
    };
    // The mark of a node that is not reached, a number since `PotentialOrMark` has it in the lent buffer. Filled here: an array of these, built for the
    // struct, would be copied into it.
    rounds.potential.fill(1152921504606846976);
    rounds.potential[0] = 0;
    rounds.stamp[0] = 131072;
    let mut climbed = [0; 2048];
    let mut b = 131072;
    while let Some(v) = rounds.round(arcs, k, b) {
        if let Some(part) = climb(arcs.from, &rounds.parent, &mut climbed, v) {
            let found = &climbed[part];
            cycle[..found.len()].copy_from_slice(found);
            return Some(found.len());
        }
        b += 131072;
    }
    potential[..nodes].copy_from_slice(&rounds.potential[..nodes]);
    None
}
