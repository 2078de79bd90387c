// Whether the arguments are well formed.
ghost use Rattle.std.specs.Prelude.{◌≡◌, ℕ, ◌<◌, length};
ghost use Rattle.walks.specs.Form.{Arc, Graph, CoefficientsInRange};
ghost use Rattle.walks.specs.Tests.{Test};
ghost use Rattle.graph.specs.Answer.{SearchArguments};

use crate::Coefficients;
use walks::Arcs;

// Where this was answered yes, three functions require it of k: as an invariant of the type it would ask more of the callers of `negative_cycle`.
fn coefficients_in_range(k: Coefficients) -> bool
    ensures { Test (CoefficientsInRange k.a k.b k.c) result }
{
    k.a.unsigned_abs() <= 20480000 && k.b.unsigned_abs() <= 20480001 && k.c.unsigned_abs() <= 1
}

fn arc_in_range(arcs: Arcs<'_>, nodes: usize, e: usize) -> bool
    requires from_room { e < length arcs.from.now }
    requires to_room { e < length arcs.to.now }
    requires cost_room { e < length arcs.cost.now }
    requires reward_room { e < length arcs.reward.now }
    ensures { let g = arcs.entry in Test (Arc g.from.now g.to.now g.cost.now g.reward.now nodes e) result }
{
    usize::from(arcs.from[e]) < nodes
        && usize::from(arcs.to[e]) < nodes
        && arcs.reward[e] <= 10000
        && (-10000..=10000).contains(&arcs.cost[e])
}

// By itself, so that the four lists stay in registers. By a loop: with `all` the search gave up at its proof.
#[inline(never)]
fn arcs_in_range(arcs: Arcs<'_>, nodes: usize) -> bool
    requires to_len { length arcs.to.now ≡ length arcs.from.now }
    requires cost_len { length arcs.cost.now ≡ length arcs.from.now }
    requires reward_len { length arcs.reward.now ≡ length arcs.from.now }
    ensures { let g = arcs.entry in Test ((e : ℕ) → e < length g.from.now
        → Arc g.from.now g.to.now g.cost.now g.reward.now nodes e) result }
{
    for e in 0..arcs.from.len() {
        if !arc_in_range(arcs, nodes, e) {
            return false;
        }
    }
    true
}

fn is_graph(arcs: Arcs<'_>, nodes: usize) -> bool
    ensures { let g = arcs.entry in Test (Graph g.from.now g.to.now g.cost.now g.reward.now nodes) result }
{
    let m = arcs.from.len();
    0 < nodes
        && nodes <= 2048
        && m <= 69632
        && arcs.to.len() == m
        && arcs.cost.len() == m
        && arcs.reward.len() == m
        && arcs_in_range(arcs, nodes)
}

// The buffers have room for as many potentials and arcs.
pub(crate) fn well_formed(
    arcs: Arcs<'_>,
    k: Coefficients,
    nodes: usize,
    potentials: usize,
    cycle_room: usize,
) -> bool
    ensures { let g = arcs.entry in Test (SearchArguments g.from.now g.to.now g.cost.now g.reward.now
        k.a k.b k.c nodes potentials cycle_room) result }
{
    nodes <= potentials && nodes <= cycle_room && coefficients_in_range(k) && is_graph(arcs, nodes)
}
