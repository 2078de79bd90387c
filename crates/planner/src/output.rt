// What stands in the answer and in the lent buffers. `as` narrows where the number is proved to fit; try_from would give a Result that never fails.
ghost use Rattle.std.specs.Prelude.{◌≡◌, ◌+◌, ◌≤◌, pos, length, replicate, Ok};
ghost use Rattle.planner.specs.ContractTerms.{answer_of, accepted};
ghost use Rattle.planner.specs.PrivatePromises.{Picked, Pickable};

use crate::sums::Sums;

// The ratio p / q, n reachable nodes, and a lasso: a stem of s steps and a cycle of m, with the units, the cost and the reward of that cycle.
#[derive(Clone, Copy, Debug, PartialEq, Eq)]
pub struct Plan {
    pub p: i64,
    pub q: u32,
    pub n: u16,
    pub s: u16,
    pub m: u16,
    pub units: u16,
    pub cost: i64,
    pub reward: u32,
}

// The numbers of an accepted sheet; they are too small to lose anything.
pub(crate) fn accepted(p: i64, q: u64, n: usize, s: usize, m: usize, cycle: Sums) -> Plan
    requires q_small { q ≤ 20480000 }
    requires n_small { n ≤ 2048 }
    requires lasso_short { s + m ≤ 2048 }
    ensures { answer_of (Ok result) ≡ accepted p q n s m cycle.units cycle.cost cycle.reward }
{
    Plan {
        p,
        q: q as u32,
        n: n as u16,
        s: s as u16,
        m: m as u16,
        units: cycle.units,
        cost: cycle.cost,
        reward: cycle.reward,
    }
}

// All entries are 0.
pub(crate) fn clear(nodes: &mut [u64], potentials: &mut [i64], steps: &mut [u16])
    ensures nodes_cleared { nodes.new ≡ replicate (length nodes.old) 0 }
    ensures potentials_cleared { potentials.new ≡ replicate (length potentials.old) (pos 0) }
    ensures steps_cleared { steps.new ≡ replicate (length steps.old) 0 }
{
    buffers::clear(nodes, 0, 0);
    buffers::clear(potentials, 0, 0);
    buffers::clear(steps, 0, 0);
}

// The potentials in the order of output.
pub(crate) fn permute(potential: &[i64], order: &[u16], potentials: &mut [i64])
    requires { Pickable potential.now order.now (length order.now) potentials.old }
    ensures { Picked (pos 0) potential.now order.now (length order.now) potentials.old potentials.new }
{
    for (i, v) in order.iter().enumerate() {
        potentials[i] = potential[usize::from(*v)];
    }
}

// The codes of the arcs. By itself and not one function with `permute`: that would be generic in the entries and in the places, and a bound
// that says how a place becomes an index is longer than this loop.
pub(crate) fn write_codes(code: &[u16], arcs: &[usize], steps: &mut [u16])
    requires { Pickable code.now arcs.now (length arcs.now) steps.old }
    ensures { Picked 0 code.now arcs.now (length arcs.now) steps.old steps.new }
{
    for (i, e) in arcs.iter().enumerate() {
        steps[i] = code[*e];
    }
}
