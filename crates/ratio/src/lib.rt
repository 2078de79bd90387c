// Questions 13 and 14, and the least ratio of cost over reward of the cycles that earn and that a walk from node 0 reaches.
#![tactic(auto)]

ghost use Rattle.ratio.specs.Answer.{RatioAnswered};

use graph::Coefficients;
use walks::{Arcs, Malformed};

mod fraction;
mod improve;

// The least ratio p / q, in lowest terms, of a cycle that earns, and the number of arcs of one that has it.
#[derive(Clone, Copy, Debug, PartialEq, Eq)]
pub struct Ratio {
    pub p: i64,
    pub q: u64,
    pub arcs: usize,
}

// Malformed arguments; no cycle earns (question 13); a cycle without reward makes money (question 14).
#[derive(Clone, Copy, Debug, PartialEq, Eq)]
pub enum NoRatio {
    Malformed,
    NoneEarns,
    IdleGain,
}

// The potentials at the ratio are written to the front of potential, the cycle's arcs in order to the front of cycle, and nothing else is
// written: nothing at all where there is no ratio.
pub fn least_ratio(
    arcs: Arcs<'_>,
    nodes: usize,
    potential: &mut [i64],
    cycle: &mut [usize],
) -> Result<Ratio, NoRatio>
    ensures { let g = arcs.entry in RatioAnswered g.from.now g.to.now g.cost.now g.reward.now nodes
        potential.old potential.new cycle.old cycle.new result }
{
    if potential.len() < nodes || cycle.len() < nodes {
        return Err(NoRatio::Malformed);
    }
    let mut unused = [0; 2048];
    let mut hand = [0; 2048];
    // The loop begins above every ratio, at 1 / 0: there just the cycles that earn are negative.
    let by_reward = Coefficients { a: 0, b: -1, c: 0 };
    match graph::negative_cycle(arcs, by_reward, nodes, &mut unused, &mut hand) {
        Err(Malformed) => Err(NoRatio::Malformed),
        Ok(None) => Err(NoRatio::NoneEarns),
        Ok(Some(k)) => improve::least_from(arcs, nodes, potential, cycle, &mut hand, k),
    }
}
