// Delays: one unit, and a region move.
ghost use Rattle.std.specs.Prelude.{◌≡◌, suc, ◌<◌};
ghost use Rattle.automaton.specs.Tests.{only};
ghost use Rattle.automaton.specs.Priced.{free};
ghost use Rattle.automaton.specs.Steps.{carry_whole, carry_class};
ghost use Rattle.nodes.specs.Numbers.{layout_at, step_by};
ghost use Rattle.nodes.specs.Decoded.{alone};
ghost use Rattle.sheet.specs.Decoded.{blank_edge};
ghost use Rattle.region.specs.Answers.{answered, stepped_of};
ghost use Rattle.region.specs.Arrays.{number_in, if_clock, bounds_in, after_rise, after_carry};

use crate::numbers::{self, Unpacked};
use crate::{Node, Region, Step};
use sheet::Location;
use std::array;

// Question 16 of one unit of delay, in one edition.
fn unit_in<const EDITION: u8>(number: u64, clocks: u8, location: Location) -> Option<Step>
    ensures { stepped_of result ≡ answered 32 (step_by (layout_at EDITION) (alone EDITION clocks blank_edge location) number 32) }
{
    let k = crate::few(EDITION, clocks);
    let node = numbers::unpack::<EDITION>(number, k).node;
    let region = node.region;
    if region.has_class(0, k) {
        return None;
    }
    if node.corner != region.largest() {
        return None;
    }
    let next = Node {
        location: node.location,
        region,
        corner: 0,
    };
    Some(Step {
        number: next.pack::<EDITION>(),
        cost: location.cost,
        reward: location.reward,
        units: 1,
    })
}

// The edition is asked for once, here and for moves and numbers, as for edges.
// Question 16 of one unit of delay. Takes for granted that the number is that of a node of the sheet (question 15 is not asked), that the sheet has
// that edition and that number of clocks, and that `location` is the record of the node's location.
pub fn unit_step(number: u64, edition: u8, clocks: u8, location: Location) -> Option<Step>
    ensures { stepped_of result ≡ answered 32 (step_by (layout_at edition) (alone edition clocks blank_edge location) number 32) }
{
    if edition == 1 {
        unit_in::<1>(number, clocks, location)
    } else {
        unit_in::<2>(number, clocks, location)
    }
}

// One class more, for a clock that the sheet has.
fn risen_class(clocks: usize, j: usize, c: u8) -> u8
    requires { c < 8 }
    ensures { result ≡ if_clock clocks j (suc c) }
{
    if j < clocks { c + 1 } else { 0 }
}

fn carry_whole(g: u8, h: u8, k: u8) -> u8
    requires { h < 16 }
    ensures { result ≡ carry_whole g h k }
{
    if k == g { h + 1 } else { h }
}

fn carry_class(g: u8, k: u8) -> u8
    ensures { result ≡ carry_class g k }
{
    if k == g { 0 } else { k }
}

impl Unpacked {
    // All classes rise by one, and the corner.
    fn after_rise(self, clocks: usize) -> Node
        ensures { result ≡ after_rise clocks self.node }
    {
        let node = self.node;
        let whole = node.region.whole;
        let class = node.region.class;
        let class = array::from_fn(|j| risen_class(clocks, j, class[j]));
        Node {
            location: node.location,
            region: Region { whole, class },
            corner: node.corner + 1,
        }
    }

    // The clocks of class g get h + 1 and class 0.
    fn after_carry(self, g: u8) -> Node
        ensures { result ≡ after_carry g self.node }
    {
        let node = self.node;
        let whole = node.region.whole;
        let class = node.region.class;
        let carried = array::from_fn(|j| carry_whole(g, whole[j], class[j]));
        let class = class.map(|k| carry_class(g, k));
        Node {
            location: node.location,
            region: Region {
                whole: carried,
                class,
            },
            corner: node.corner,
        }
    }
}

// A free step to a node, which must lie within the upper bytes.
fn land<const EDITION: u8>(node: Node, upper: [u8; 4], clocks: usize) -> Option<Step>
    ensures { stepped_of result ≡ answered 33 (only (bounds_in upper clocks node.region) (free (number_in EDITION node))) }
{
    if !node.region.inside(upper, clocks) {
        return None;
    }
    Some(Step {
        number: node.pack::<EDITION>(),
        cost: 0,
        reward: 0,
        units: 0,
    })
}

// Question 16 of a region move, in one edition.
fn move_in<const EDITION: u8>(number: u64, clocks: u8, location: Location) -> Option<Step>
    ensures { stepped_of result ≡ answered 33 (step_by (layout_at EDITION) (alone EDITION clocks blank_edge location) number 33) }
{
    let k = crate::few(EDITION, clocks);
    let from = numbers::unpack::<EDITION>(number, k);
    if from.node.region.has_class(0, k) {
        return land::<EDITION>(from.after_rise(k), location.upper, k);
    }
    let g = from.node.region.largest();
    if from.node.corner < g {
        return land::<EDITION>(from.after_carry(g), location.upper, k);
    }
    None
}

// Question 16 of a region move. Takes for granted what `unit_step` does.
pub fn move_step(number: u64, edition: u8, clocks: u8, location: Location) -> Option<Step>
    ensures { stepped_of result ≡ answered 33 (step_by (layout_at edition) (alone edition clocks blank_edge location) number 33) }
{
    if edition == 1 {
        move_in::<1>(number, clocks, location)
    } else {
        move_in::<2>(number, clocks, location)
    }
}
