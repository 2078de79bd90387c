// One step of a sheet.
#![tactic(auto)]

ghost use Rattle.std.specs.Prelude.{◌≡◌, ◌≤◌, get_or};
ghost use Rattle.nodes.specs.Numbers.{is_number, step_by};
ghost use Rattle.nodes.specs.Decoded.{decoded_meaning, layout_in};
ghost use Rattle.sheet.specs.Decoded.{blank_location};
ghost use Rattle.region.specs.Answers.{answered};
ghost use Rattle.step.specs.Step.{step_answer, step_of, step_in};

use refusals::Refusal;
use region::Step;
use sheet::{Location, Sheet};

// The record of a location, a blank one past the last.
fn location_record(all: [Location; 12], l: usize) -> Location
    ensures { result ≡ get_or all l blank_location }
{
    all.get(l).copied().unwrap_or(Location::default())
}

// Question 15.
fn is_number_of(sheet: Sheet, number: u64) -> bool
    ensures { result ≡ is_number (layout_in sheet) (decoded_meaning sheet) number }
{
    let l = region::location_in(number, sheet.edition);
    if sheet.locations <= l {
        return false;
    }
    let location = location_record(sheet.location, usize::from(l));
    region::corners::is_number(number, sheet.edition, sheet.clocks, location)
}

// Question 16.
fn step_from(sheet: Sheet, number: u64, code: u16) -> Result<Step, Refusal>
    ensures { step_answer result ≡ answered code (step_by (layout_in sheet) (decoded_meaning sheet) number code) }
{
    let k = usize::from(code);
    let edges = stepper::edge_records(sheet.edge);
    let edge = edges[k % 32];
    let l = stepper::location_needed(number, sheet.edition, k, edge.target);
    let location = location_record(sheet.location, l);
    stepper::step_at(
        number,
        k,
        sheet.edition,
        sheet.clocks,
        sheet.edges,
        edge,
        location,
    )
    .ok_or(Refusal::NotAllowed)
}

// One step of a decoded sheet: its refusal, then questions 15 and 16.
fn step_in(sheet: Sheet, number: u64, code: u16) -> Result<Step, Refusal>
    requires { sheet.refusal ≤ 18 }
    ensures { step_answer result ≡ step_in sheet number code }
{
    if let Some(refused) = Refusal::numbered(sheet.refusal) {
        return Err(refused);
    }
    if !is_number_of(sheet, number) {
        return Err(Refusal::NoNode);
    }
    step_from(sheet, number, code)
}

// One step: the questions of the check, then 15 and 16.
pub fn step(sheet: &[u8], number: u64, code: u16) -> Result<Step, Refusal>
    ensures { step_answer result ≡ step_of sheet.now number code }
{
    step_in(reader::read(sheet), number, code)
}
