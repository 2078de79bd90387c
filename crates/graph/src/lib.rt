// A simple cycle of negative weight that a walk from node 0 reaches, or the potentials: the least weights of walks from node 0.
// The arc e weighs a * cost[e] + b * reward[e] + c.
#![tactic(auto)]

ghost use Rattle.graph.specs.Answer.{SearchAnswered};

use walks::{Arcs, Malformed};

mod climb;
mod form;
mod potentials;
mod search;
mod weight;

#[derive(Clone, Copy)]
pub struct Coefficients {
    pub a: i64,
    pub b: i64,
    pub c: i64,
}

// The number of a negative cycle's arcs; or none, and the potentials. A cycle's arcs are written in order to the front of cycle, the
// potentials to the front of potential, and nothing else is written.
pub fn negative_cycle(
    arcs: Arcs<'_>,
    k: Coefficients,
    nodes: usize,
    potential: &mut [i64],
    cycle: &mut [usize],
) -> Result<Option<usize>, Malformed>
    ensures { let g = arcs.entry in SearchAnswered g.from.now g.to.now g.cost.now g.reward.now k.a k.b k.c nodes
        potential.old potential.new cycle.old cycle.new result }
{
    if !form::well_formed(arcs, k, nodes, potential.len(), cycle.len()) {
        return Err(Malformed);
    }
    Ok(search::search(arcs, k, nodes, potential, cycle))
}
