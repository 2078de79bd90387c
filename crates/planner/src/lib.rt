// The plan of a sheet: the least ratio of cost over reward, the reachable nodes with their potentials, and a lasso whose cycle has that ratio.
#![tactic(auto)]

ghost use Rattle.contract.specs.Plan.{Planned};
ghost use Rattle.planner.specs.ContractTerms.{lent_buffers, answer_of};
ghost use Rattle.planner.specs.PrivatePromises.{PlannedButForClearing};

use refusals::Refusal;

mod graphs;
mod output;
mod sheets;
mod sums;

pub use output::Plan;

// The questions of a plan in their order. Where one of 12 to 14 is answered no, the buffers are still to be cleared.
fn ask(
    sheet: &[u8],
    nodes: &mut [u64],
    potentials: &mut [i64],
    steps: &mut [u16],
) -> Result<Plan, Refusal>
    ensures { PlannedButForClearing sheet.now (lent_buffers nodes.old potentials.old steps.old)
        (lent_buffers nodes.new potentials.new steps.new) (answer_of result) }
{
    if nodes.len() < 2048 || potentials.len() < 2048 || steps.len() < 2048 {
        return Err(Refusal::ShortBuffer);
    }
    let read = reader::read(sheet);
    if let Some(refused) = Refusal::numbered(read.refusal) {
        return Err(refused);
    }
    sheets::plan_read(read, nodes, potentials, steps)
}

// The answer to the questions of a plan: 1, those of the check, and 12 to 14. The nodes' numbers are written to nodes, rising, their
// potentials to potentials, and the codes of stem and cycle to steps; refusals 12 to 14 clear all three.
// The three are handed on one by one: a lent struct of `&mut` slices was tried, and its proof didn't close where `explore` sorts in `nodes`.
pub fn plan(
    sheet: &[u8],
    nodes: &mut [u64],
    potentials: &mut [i64],
    steps: &mut [u16],
) -> Result<Plan, Refusal>
    ensures { Planned sheet.now (lent_buffers nodes.old potentials.old steps.old)
        (lent_buffers nodes.new potentials.new steps.new) (answer_of result) }
{
    let answer = ask(sheet, nodes, potentials, steps);
    if matches!(
        answer,
        Err(Refusal::TooManyNodes | Refusal::NoneEarns | Refusal::IdleGain)
    ) {
        output::clear(nodes, potentials, steps);
    }
    answer
}
