// One step of a sheet by the records that it needs, so that the sheet itself is not passed on with each step.
#![tactic(auto)]

ghost use Rattle.std.specs.Prelude.{◌≡◌, ℕ, ◌<◌, length, get_or};
ghost use Rattle.sheet.specs.Decoded.{blank_location};
ghost use Rattle.region.specs.Answers.{stepped_of};
ghost use Rattle.stepper.specs.Records.{leaves_elsewhere, location_needed, step_by_records};

use region::Step;
use sheet::{Edge, Location};

// The edges' records: that there are 32 of them is told of a parameter, and not of a field.
pub fn edge_records(edges: [Edge; 32]) -> [Edge; 32]
    ensures { (result ≡ edges) × (length result ≡ 32) }
{
    edges
}

// The locations' records at every number that a byte can be, blank ones past the last.
pub fn location_records(locations: [Location; 12]) -> [Location; 256]
    ensures room { length result ≡ 256 }
    ensures copied { ((l : ℕ) → l < 256 → get_or result l blank_location ≡ get_or locations l blank_location) }
{
    let mut all = [Location::default(); 256];
    all[..12].copy_from_slice(&locations);
    all
}

// Whether the code is that of an edge which leaves another location than the node's: most do, and they are passed over.
pub fn elsewhere(number: u64, edition: u8, code: usize, source: u8) -> bool
    ensures { result ≡ leaves_elsewhere number edition code source }
{
    if code < 32 {
        return source != region::location_in(number, edition);
    }
    false
}

// The location whose record the step needs: the one that an edge leads to, or that a delay stays in.
pub fn location_needed(number: u64, edition: u8, code: usize, target: u8) -> usize
    ensures value { result ≡ location_needed number edition code target }
    ensures small { result < 256 }
{
    if code < 32 {
        return usize::from(target);
    }
    usize::from(region::location_in(number, edition))
}

// Question 16 of a code at a node of a sheet with this edition and these counts of clocks and edges. Takes for granted that the number is a node's
// (question 15 is not asked), that `edge` is the record of the code's edge and `location` that of the location needed.
// A code is a number, as it stands in the lent buffers: `step_by_records` answers each of them. The edition and the counts stay apart, as it names them:
// a struct of them would be made for each call and taken apart in it.
pub fn step_at(
    number: u64,
    code: usize,
    edition: u8,
    clocks: u8,
    edges: u8,
    edge: Edge,
    location: Location,
) -> Option<Step>
    ensures { stepped_of result ≡ step_by_records number code edition clocks edges edge location }
{
    match code {
        0..=31 => {
            if usize::from(edges) <= code {
                return None;
            }
            region::edges::edge_step(number, edition, clocks, edge, location)
        }
        32 => region::delays::unit_step(number, edition, clocks, location),
        33 => region::delays::move_step(number, edition, clocks, location),
        _ => None,
    }
}
