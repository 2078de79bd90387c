// An edge, taken from a node.
ghost use Rattle.std.specs.Prelude.{◌≡◌, cond, ◌<◌};
ghost use Rattle.automaton.specs.Ranks.{mask};
ghost use Rattle.nodes.specs.Numbers.{layout_at, step_by};
ghost use Rattle.nodes.specs.Decoded.{alone};
ghost use Rattle.sheet.specs.Maps.{stands};
ghost use Rattle.region.specs.Answers.{answered, stepped_of};
ghost use Rattle.region.specs.Arrays.{after_edge};

use crate::numbers::{self, Unpacked};
use crate::ranks::Ranks;
use crate::{Node, Region, Step};
use sheet::{Edge, Location};
use std::array;

// What a reset mask leaves of a part of clock j.
fn reset_part(reset: u8, j: u32, v: u8) -> u8
    requires { j < 8 }
    ensures { result ≡ cond (stands reset j) 0 v }
{
    if numbers::bits(u64::from(reset), 1, j) == 0 {
        v
    } else {
        0
    }
}

// Masked clocks get 0.
fn reset_parts(reset: u8, parts: [u8; 4]) -> [u8; 4]
    ensures { result ≡ mask (stands reset) parts }
{
    array::from_fn(|j| reset_part(reset, j as u32, parts[j]))
}

impl Unpacked {
    // Where an edge leads: emptied ranks close up, and the corner with them.
    fn after_edge(self, target: u8, reset: u8) -> Node
        ensures { result ≡ after_edge self.node target reset }
    {
        let node = self.node;
        let whole = reset_parts(reset, node.region.whole);
        let ranks = Ranks::of(reset_parts(reset, node.region.class));
        let class = ranks.closed_up();
        let corner = ranks.rank(node.corner);
        Node {
            location: target,
            region: Region { whole, class },
            corner,
        }
    }
}

// Question 16 of an edge in one edition. An edge that starts elsewhere is refused first: most do.
fn edge_in<const EDITION: u8>(number: u64, clocks: u8, edge: Edge, target: Location) -> Option<Step>
    ensures { stepped_of result ≡ answered 0 (step_by (layout_at EDITION) (alone EDITION clocks edge target) number 0) }
{
    if edge.source != crate::location_in(number, EDITION) {
        return None;
    }
    let k = crate::few(EDITION, clocks);
    let from = numbers::unpack::<EDITION>(number, k);
    if !from.node.region.guards_hold(edge.lower, edge.upper, k) {
        return None;
    }
    let next = from.after_edge(edge.target, edge.reset);
    if !next.region.inside(target.upper, k) {
        return None;
    }
    Some(Step {
        number: next.pack::<EDITION>(),
        cost: edge.cost,
        reward: edge.reward,
        units: 0,
    })
}

// Question 16 of an edge, by its record and that of its target. Takes for granted that the number is that of a node of the sheet (question 15 is
// not asked), that the sheet has that edition, the edge and that number of clocks, and that `target` is the record of the location that the edge leads to.
// The edition is asked for once: with it as a variable a step, on which a plan with many arcs spends a third of its time, took longer
// (docs/DECISIONS.md).
pub fn edge_step(number: u64, edition: u8, clocks: u8, edge: Edge, target: Location) -> Option<Step>
    ensures { stepped_of result ≡ answered 0 (step_by (layout_at edition) (alone edition clocks edge target) number 0) }
{
    if edition == 1 {
        edge_in::<1>(number, clocks, edge, target)
    } else {
        edge_in::<2>(number, clocks, edge, target)
    }
}
