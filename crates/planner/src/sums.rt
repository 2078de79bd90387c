// What the cycle of a lasso takes, costs and earns.
ghost use Rattle.std.specs.Prelude.{◌≡◌, ◌≤◌};
ghost use Rattle.automaton.specs.Times.{units_of};
ghost use Rattle.planner.specs.PrivatePromises.{Summable, SumsOf};

use crate::graphs::SheetGraph;

// The units, the cost and the reward.
#[derive(Clone, Copy)]
pub(crate) struct Sums {
    pub(crate) units: u16,
    pub(crate) cost: i64,
    pub(crate) reward: u32,
}

fn units_of(code: u16) -> u16
    ensures value { result ≡ units_of code }
    ensures small { result ≤ 1 }
{
    match code {
        0..=31 => 0,
        32 => 1,
        33 => 0,
        // No step has another code.
        _ => 0,
    }
}

pub(crate) fn sums_of(graph: SheetGraph<'_>, cycle: &[usize]) -> Sums
    requires { Summable graph.code.now graph.arcs.cost.now graph.arcs.reward.now cycle.now }
    ensures { let g = graph.entry in SumsOf g.code.now g.arcs.cost.now g.arcs.reward.now cycle.now result }
{
    let mut units = 0;
    let mut cost = 0;
    let mut reward = 0;
    for e in cycle {
        units += units_of(graph.code[*e]);
        cost += i64::from(graph.arcs.cost[*e]);
        reward += u32::from(graph.arcs.reward[*e]);
    }
    Sums {
        units,
        cost,
        reward,
    }
}
