// The work plan of a sheet in whole units: the lasso of its plan as pairs of units to wait and an edge number.
#![tactic(auto)]

ghost use Rattle.std.specs.Prelude.{◌≡◌};
ghost use Rattle.sheet.specs.Questions.{check_of};
ghost use Rattle.sheet.specs.Decoded.{read_of};
ghost use Rattle.work.specs.Work.{work_answer, lent_pairs, RoomForPairs, Worked};
ghost use Rattle.work.specs.PrivatePromises.{ClearedFrom};

use refusals::Refusal;
use sheet::Sheet;

mod closed;
mod pairs;
mod turn;

// How many pairs the stem and the cycle have.
#[derive(Clone, Copy, Debug, PartialEq, Eq)]
pub struct Lengths {
    pub stem: u16,
    pub cycle: u16,
}

// Questions 12 to 14, then 18, and the pairs. The sheet passes the check, and the buffers are cleared.
fn plan_pairs(
    sheet: &[u8],
    read: Sheet,
    waits: &mut [u16],
    edges: &mut [u16],
) -> Result<Lengths, Refusal>
    requires passed { check_of sheet.now ≡ 0 }
    requires read_so { read ≡ read_of sheet.now }
    requires long_enough { RoomForPairs (lent_pairs waits.old edges.old) }
    ensures { (o : ClearedFrom (lent_pairs waits.old edges.old))
        → Worked sheet.now o.before (lent_pairs waits.new edges.new) (work_answer result) }
{
    let mut nodes = [0u64; 2048];
    let mut potentials = [0i64; 2048];
    let mut codes = [0u16; 2048];
    let answer = planner::plan(sheet, &mut nodes, &mut potentials, &mut codes);
    let plan = answer?;
    if !closed::is_closed(read) {
        return Err(Refusal::Strict);
    }
    let s = usize::from(plan.s);
    let m = usize::from(plan.m);
    let (stem, cycle) = codes[..s + m].split_at(s);
    Ok(turn::write_lasso(stem, cycle, waits, edges))
}

// Question 1, those of the check, 12 to 14 and 18. Where all are answered yes, the pairs of the stem and then of the cycle are written, the
// waits to `waits` and the edge numbers to `edges`, 0 behind them; refusals 12 to 14 and 18 clear both buffers.
pub fn work(sheet: &[u8], waits: &mut [u16], edges: &mut [u16]) -> Result<Lengths, Refusal>
    ensures { Worked sheet.now (lent_pairs waits.old edges.old) (lent_pairs waits.new edges.new) (work_answer result) }
{
    if waits.len() < 2049 || edges.len() < 2049 {
        return Err(Refusal::ShortBuffer);
    }
    let read = reader::read(sheet);
    if let Some(refusal) = Refusal::numbered(read.refusal) {
        return Err(refusal);
    }
    buffers::clear(waits, 0, 0);
    buffers::clear(edges, 0, 0);
    plan_pairs(sheet, read, waits, edges)
}
