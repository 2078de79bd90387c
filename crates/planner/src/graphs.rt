// The plan of an explored graph: questions 13 and 14, and what is written where they are answered yes.
ghost use Rattle.std.specs.Prelude.{◌≤◌, length};
ghost use Rattle.contract.specs.Plan.{LongEnough};
ghost use Rattle.planner.specs.ContractTerms.{lent_buffers, answer_of};
ghost use Rattle.planner.specs.PrivatePromises.{Handed, OfSheet, Cyclic, Solved, PlannedButForClearing};

use crate::sums::sums_of;
use crate::{Plan, output};
use ratio::{NoRatio, Ratio};
use refusals::Refusal;
use walks::Arcs;

// An explored graph: its arcs with the codes of their steps, its nodes in the order of output, and the arc by which each was discovered.
#[derive(Clone, Copy)]
pub(crate) struct SheetGraph<'a> {
    pub(crate) arcs: Arcs<'a>,
    pub(crate) code: &'a [u16],
    pub(crate) order: &'a [u16],
    pub(crate) tree: &'a [usize],
}

// The lasso of a cycle of the least ratio p / q, its sums and the buffers; potential has the nodes' potentials in the order of discovery. p and q come
// without the count that `Ratio` has beside them: the cycle is as long as its list.
fn accept(
    graph: SheetGraph<'_>,
    potential: &[i64],
    cycle: &[usize],
    p: i64,
    q: u64,
    nodes: &mut [u64],
    potentials: &mut [i64],
    steps: &mut [u16],
) -> Result<Plan, Refusal>
    requires cyclic { Cyclic graph.arcs.from.now graph.arcs.to.now graph.code.now graph.arcs.cost.now graph.arcs.reward.now
        graph.order.now graph.tree.now cycle.now (length graph.tree.now) (length cycle.now) }
    requires potential_room { length graph.tree.now ≤ length potential.now }
    requires q_small { q ≤ 20480000 }
    requires long_enough { LongEnough (lent_buffers nodes.old potentials.old steps.old) }
    ensures { let g = graph.entry in (o : Solved g.arcs.from.now g.arcs.to.now g.code.now g.arcs.cost.now g.arcs.reward.now g.order.now
        potential.now cycle.now (length g.tree.now) (length cycle.now) p q (lent_buffers nodes.old potentials.old steps.old))
        → PlannedButForClearing o.of_sheet.bytes o.of_sheet.before (lent_buffers nodes.new potentials.new steps.new) (answer_of result) }
{
    let mut lasso = [0usize; 4096];
    let n = graph.tree.len();
    let m = cycle.len();
    // Never an error: the arguments are well formed.
    let Ok(s) = lasso::lasso_of(graph.arcs, graph.tree, n, cycle, m, &mut lasso) else {
        return Err(Refusal::NoneEarns);
    };
    let all = s + m;
    buffers::clear(nodes, 0, n);
    output::permute(potential, graph.order, potentials);
    buffers::clear(potentials, 0, n);
    output::write_codes(graph.code, &lasso[..all], steps);
    buffers::clear(steps, 0, all);
    let sums = sums_of(graph, &lasso[s..all]);
    Ok(output::accepted(p, q, n, s, m, sums))
}

pub(crate) fn plan_graph(
    graph: SheetGraph<'_>,
    nodes: &mut [u64],
    potentials: &mut [i64],
    steps: &mut [u16],
) -> Result<Plan, Refusal>
    requires handed { Handed graph.arcs.from.now graph.arcs.to.now graph.code.now graph.arcs.cost.now graph.arcs.reward.now
        graph.order.now graph.tree.now (length graph.tree.now) }
    requires long_enough { LongEnough (lent_buffers nodes.old potentials.old steps.old) }
    ensures { let g = graph.entry in (o : OfSheet g.arcs.from.now g.arcs.to.now g.code.now g.arcs.cost.now g.arcs.reward.now g.order.now
        (length g.tree.now) (lent_buffers nodes.old potentials.old steps.old))
        → PlannedButForClearing o.bytes o.before (lent_buffers nodes.new potentials.new steps.new) (answer_of result) }
{
    let mut potential = [0i64; 2048];
    let mut cycle = [0usize; 2048];
    let n = graph.tree.len();
    match ratio::least_ratio(graph.arcs, n, &mut potential, &mut cycle) {
        Ok(Ratio { p, q, arcs }) => accept(
            graph,
            &potential,
            &cycle[..arcs],
            p,
            q,
            nodes,
            potentials,
            steps,
        ),
        Err(NoRatio::NoneEarns) => Err(Refusal::NoneEarns),
        Err(NoRatio::IdleGain) => Err(Refusal::IdleGain),
        // Never: the arguments are well formed.
        Err(NoRatio::Malformed) => Err(Refusal::NoneEarns),
    }
}
