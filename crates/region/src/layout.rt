// Where the number of a node has its parts, by the edition: its byte and no enum, since every byte has a layout (`layout_at`).
ghost use Rattle.std.specs.Prelude.{◌≡◌, ◌≤◌, ◌<◌};
ghost use Rattle.nodes.specs.Numbers.{layout_at, class_at, whole_at};

// How many bits a class and the corner have.
pub(crate) fn class_bits(edition: u8) -> u32
    ensures { (result ≡ (layout_at edition).bits) × (result ≤ 3) }
{
    if edition == 1 { 2 } else { 3 }
}

// The bit where the class of clock j begins, which is the one behind the clocks before it.
pub(crate) fn class_at(edition: u8, j: u32) -> u32
    requires { j ≤ 4 }
    ensures { (result ≡ class_at (layout_at edition) j) × (result ≤ 31) }
{
    class_bits(edition) + (class_bits(edition) + 4) * j
}

// The bit where its whole part begins.
pub(crate) fn whole_at(edition: u8, j: u32) -> u32
    requires { j ≤ 4 }
    ensures { (result ≡ whole_at (layout_at edition) j) × (result ≤ 34) }
{
    class_at(edition, j) + class_bits(edition)
}

// The bit where the location begins, behind all clocks that the edition has.
pub(crate) fn location_at(edition: u8) -> u32
    ensures { (result ≡ (layout_at edition).location) × (result ≤ 31) }
{
    class_at(edition, u32::from(editions::most_clocks(edition)))
}
