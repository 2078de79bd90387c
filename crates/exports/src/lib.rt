// The planner for programs in C and Rust, declared to them in bindings/. A slice crosses as a pointer and a count, a number to be written as a pointer.
// Each function answers the refusal, and writes each of its numbers in every call; they are 0 where it refuses. Numbers and not Results, and a
// parameter for each number: the C interface.
#![tactic(auto)]

ghost use Rattle.std.specs.Prelude.{◌≡◌, pos};
ghost use Rattle.sheet.specs.Questions.{check_of};
ghost use Rattle.step.specs.Step.{step_of};
ghost use Rattle.planner.specs.ContractTerms.{lent_buffers};
ghost use Rattle.work.specs.Work.{lent_pairs};
ghost use Rattle.exports.specs.ExportedPlan.{ExportedPlan};
ghost use Rattle.exports.specs.ExportedWork.{ExportedWork};

// The questions of the check: 2 to 10, 17 and 11.
#[unsafe(no_mangle)]
pub extern "C" fn planner_check(sheet: &[u8]) -> u8
    ensures { result ≡ check_of sheet.now }
{
    match reader::check(sheet) {
        Ok(()) => 0,
        Err(refused) => refused.number(),
    }
}

// A single step: the new node's number, the cost, the reward and the units elapsed.
#[unsafe(no_mangle)]
pub extern "C" fn planner_step(
    sheet: &[u8],
    node: u64,
    code: u16,
    number: &mut u64,
    cost: &mut i64,
    reward: &mut i64,
    units: &mut i64,
) -> u8
    ensures value { result ≡ (step_of sheet.now node code).refusal }
    ensures number_after { number.new ≡ (step_of sheet.now node code).number }
    ensures cost_after { cost.new ≡ (step_of sheet.now node code).cost }
    ensures reward_after { reward.new ≡ pos (step_of sheet.now node code).reward }
    ensures units_after { units.new ≡ pos (step_of sheet.now node code).units }
{
    match step::step(sheet, node, code) {
        Ok(s) => {
            *number = s.number;
            *cost = i64::from(s.cost);
            *reward = i64::from(s.reward);
            *units = i64::from(s.units);
            0
        }
        Err(refused) => {
            *number = 0;
            *cost = 0;
            *reward = 0;
            *units = 0;
            refused.number()
        }
    }
}

// A plan: the ratio p / q, n reachable nodes, a stem of s steps and a cycle of m, and that cycle's units, cost and reward.
#[unsafe(no_mangle)]
pub extern "C" fn planner_plan(
    sheet: &[u8],
    nodes: &mut [u64],
    potentials: &mut [i64],
    steps: &mut [u16],
    p: &mut i64,
    q: &mut i64,
    n: &mut i64,
    s: &mut i64,
    m: &mut i64,
    units: &mut i64,
    cost: &mut i64,
    reward: &mut i64,
) -> u8
    ensures { ExportedPlan sheet.now (lent_buffers nodes.old potentials.old steps.old)
        (lent_buffers nodes.new potentials.new steps.new) result p.new q.new n.new
        s.new m.new units.new cost.new reward.new }
{
    match planner::plan(sheet, nodes, potentials, steps) {
        Ok(a) => {
            *p = a.p;
            *q = i64::from(a.q);
            *n = i64::from(a.n);
            *s = i64::from(a.s);
            *m = i64::from(a.m);
            *units = i64::from(a.units);
            *cost = a.cost;
            *reward = i64::from(a.reward);
            0
        }
        Err(refused) => {
            *p = 0;
            *q = 0;
            *n = 0;
            *s = 0;
            *m = 0;
            *units = 0;
            *cost = 0;
            *reward = 0;
            refused.number()
        }
    }
}

// A work plan in whole units: the numbers of pairs of its stem and of its cycle.
#[unsafe(no_mangle)]
pub extern "C" fn planner_work(
    sheet: &[u8],
    waits: &mut [u16],
    edges: &mut [u16],
    stem: &mut i64,
    cycle: &mut i64,
) -> u8
    ensures { ExportedWork sheet.now (lent_pairs waits.old edges.old)
        (lent_pairs waits.new edges.new) result stem.new cycle.new }
{
    match work::work(sheet, waits, edges) {
        Ok(a) => {
            *stem = i64::from(a.stem);
            *cycle = i64::from(a.cycle);
            0
        }
        Err(refused) => {
            *stem = 0;
            *cycle = 0;
            refused.number()
        }
    }
}
