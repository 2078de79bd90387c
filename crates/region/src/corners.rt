// Question 15: whether a number is that of a node.
ghost use Rattle.std.specs.Prelude.{◌≡◌, ◌&&◌, leb};
ghost use Rattle.automaton.specs.Ranks.{largest};
ghost use Rattle.automaton.specs.Nodes.{uses_each_rank};
ghost use Rattle.nodes.specs.Numbers.{layout_at, is_number};
ghost use Rattle.nodes.specs.Decoded.{alone};
ghost use Rattle.sheet.specs.Decoded.{blank_edge};

use crate::numbers::{self, Unpacked};
use crate::ranks::Ranks;
use sheet::Location;

impl Unpacked {
    // Each rank is used, and the corner is one of the region's.
    fn is_cornered(self) -> bool
        ensures { result ≡ uses_each_rank self.node.region.class && leb self.node.corner (largest self.node.region.class) }
    {
        let region = self.node.region;
        let g = region.largest();
        Ranks::of(region.class).rank(g) == g && self.node.corner <= g
    }
}

// Question 15 in one edition.
fn is_number_in<const EDITION: u8>(number: u64, clocks: u8, location: Location) -> bool
    ensures { result ≡ is_number (layout_at EDITION) (alone EDITION clocks blank_edge location) number }
{
    let k = crate::few(EDITION, clocks);
    let unpacked = numbers::unpack::<EDITION>(number, k);
    let node = unpacked.node;
    if node.pack::<EDITION>() != number {
        return false;
    }
    if !unpacked.is_cornered() {
        return false;
    }
    node.region.inside(location.upper, k)
}

// Whether the number is that of a node, by its location's record. Takes for granted that the sheet has that edition, that number of clocks and the location
// that the number tells, and that `location` is that one's record.
pub fn is_number(number: u64, edition: u8, clocks: u8, location: Location) -> bool
    ensures { result ≡ is_number (layout_at edition) (alone edition clocks blank_edge location) number }
{
    if edition == 1 {
        is_number_in::<1>(number, clocks, location)
    } else {
        is_number_in::<2>(number, clocks, location)
    }
}
