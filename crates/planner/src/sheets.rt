// The plan of a decoded sheet: question 12, and what follows.
ghost use Rattle.contract.specs.Plan.{LongEnough};
ghost use Rattle.planner.specs.ContractTerms.{lent_buffers, answer_of};
ghost use Rattle.planner.specs.PrivatePromises.{ReadFrom, PlannedButForClearing};

use crate::Plan;
use crate::graphs::{SheetGraph, plan_graph};
use explore::{ArcLists, NodeLists, Size, Unexplored};
use refusals::Refusal;
use sheet::Sheet;
use walks::Arcs;

pub(crate) fn plan_read(
    read: Sheet,
    nodes: &mut [u64],
    potentials: &mut [i64],
    steps: &mut [u16],
) -> Result<Plan, Refusal>
    requires read_so { ReadFrom read }
    requires long_enough { LongEnough (lent_buffers nodes.old potentials.old steps.old) }
    ensures { (o : ReadFrom read) → PlannedButForClearing o.bytes (lent_buffers nodes.old potentials.old steps.old)
        (lent_buffers nodes.new potentials.new steps.new) (answer_of result) }
{
    let mut found = [0u64; 2048];
    let mut order = [0u16; 2048];
    let mut tree = [0usize; 2048];
    let mut from = [0u16; 69632];
    let mut to = [0u16; 69632];
    let mut code = [0u16; 69632];
    let mut cost = [0i16; 69632];
    let mut reward = [0u16; 69632];
    let mut lists = NodeLists {
        numbers: &mut found,
        sorted: &mut *nodes,
        order: &mut order,
        tree: &mut tree,
    };
    let mut arcs = ArcLists {
        from: &mut from,
        to: &mut to,
        code: &mut code,
        cost: &mut cost,
        reward: &mut reward,
    };
    match explore::explore(read, &mut lists, &mut arcs) {
        Ok(Size { nodes: n, arcs: m }) => {
            let graph = SheetGraph {
                arcs: Arcs {
                    from: &from[..m],
                    to: &to[..m],
                    cost: &cost[..m],
                    reward: &reward[..m],
                },
                code: &code[..m],
                order: &order[..n],
                tree: &tree[..n],
            };
            plan_graph(graph, nodes, potentials, steps)
        }
        Err(Unexplored::TooMany) => Err(Refusal::TooManyNodes),
        // Never: the sheet passed the check, and the lists are long enough.
        Err(Unexplored::Malformed) => Err(Refusal::TooManyNodes),
    }
}
