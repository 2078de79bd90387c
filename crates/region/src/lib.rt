// Nodes by value, and their steps by the records that a step needs.
#![tactic(auto)]

ghost use Rattle.std.specs.Prelude.{◌≡◌};
ghost use Rattle.nodes.specs.Numbers.{layout_at, bits_of};
ghost use Rattle.nodes.specs.Decoded.{few_clocks};

mod bounds;
mod classes;
pub mod corners;
pub mod delays;
pub mod edges;
mod layout;
mod numbers;
mod ranks;

// Each clock's whole part and class; clocks that the sheet does not have are at 0.
#[derive(Clone, Copy)]
pub struct Region {
    pub whole: [u8; 4],
    pub class: [u8; 4],
}

#[derive(Clone, Copy)]
pub struct Node {
    pub location: u8,
    pub region: Region,
    pub corner: u8,
}

// A step that is allowed: the number of the node that it leads to, what it costs and earns, and the units that elapse.
#[derive(Clone, Copy)]
pub struct Step {
    pub number: u64,
    pub cost: i16,
    pub reward: u16,
    pub units: u16,
}

// The location in a number's bits. Takes for granted that the number is a node's: a sheet may have no such location.
pub fn location_in(number: u64, edition: u8) -> u8
    ensures { result ≡ bits_of number 4 (layout_at edition).location }
{
    numbers::bits(number, 4, layout::location_at(edition))
}

// The clocks of a sheet, or the most that its edition has.
pub(crate) fn few(edition: u8, clocks: u8) -> usize
    ensures { result ≡ few_clocks edition clocks }
{
    usize::from(clocks.min(editions::most_clocks(edition)))
}
