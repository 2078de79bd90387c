// Node numbers, packed and unpacked by shifts and masks. The edition is a const parameter, so that each of the two is compiled with its own constants.
ghost use Rattle.std.specs.Prelude.{◌≡◌, ℕ, ◌+◌, ◌≤◌, ◌<◌, ◌^◌, get_or};
ghost use Rattle.nodes.specs.Numbers.{layout_at, class_at, put, bits_of, list_from};
ghost use Rattle.region.specs.Arrays.{pad_to, node_in, number_in, if_clock};

use crate::{Node, Region, layout};
use std::array;

// `width` bits of x from the bit `at` on.
pub(crate) fn bits(x: u64, width: u32, at: u32) -> u8
    requires { (width ≤ 4) × (at < 64) }
    ensures { result ≡ bits_of x width at }
{
    ((x >> at) & ((1 << width) - 1)) as u8
}

// v in `width` bits from the bit `at` on, above the bits of x.
fn with_part(x: u64, v: u8, width: u32, at: u32) -> u64
    requires { (x < 2 ^ at) × ((width ≤ 4) × (at ≤ 60)) }
    ensures { result ≡ x + put v width at }
{
    x | ((u64::from(v) & ((1 << width) - 1)) << at)
}

// The part of each clock that has `width` bits and begins `offset` bits behind its class; a clock that the sheet does not have is at 0.
fn parts<const EDITION: u8>(x: u64, clocks: usize, width: u32, offset: u32) -> [u8; 4]
    requires { (width ≤ 4) × (offset ≤ 4) }
    ensures { result ≡ pad_to 4 (list_from (λ j. bits_of x width (class_at (layout_at EDITION) j + offset)) 0 clocks) }
{
    array::from_fn(
        |j: usize| -> u8
            requires { (j < 4) × ((width ≤ 4) × (offset ≤ 4)) }
            ensures { result ≡ if_clock clocks j (bits_of x width (class_at (layout_at EDITION) j + offset)) }
        {
            if j < clocks {
                bits(x, width, layout::class_at(EDITION, j as u32) + offset)
            } else {
                0
            }
        },
    )
}

// The node that a number tells: no part is larger than its bits.
#[derive(Clone, Copy)]
pub(crate) struct Unpacked {
    pub node: Node,
    ghost corner_low: { node.corner < 8 },
    ghost classes_low: { (j : ℕ) → get_or node.region.class j 0 < 8 },
    ghost wholes_low: { (j : ℕ) → get_or node.region.whole j 0 < 16 },
}

// The node of a number, for this number of clocks.
pub(crate) fn unpack<const EDITION: u8>(x: u64, clocks: usize) -> Unpacked
    ensures { result.node ≡ node_in EDITION clocks x }
{
    let width = layout::class_bits(EDITION);
    let whole = parts::<EDITION>(x, clocks, 4, width);
    let class = parts::<EDITION>(x, clocks, width, 0);
    let node = Node {
        location: bits(x, 4, layout::location_at(EDITION)),
        region: Region { whole, class },
        corner: bits(x, width, 0),
    };
    Unpacked { node }
}

impl Node {
    // Its number; clocks that the edition does not have are left out.
    pub(crate) fn pack<const EDITION: u8>(self) -> u64
        ensures { result ≡ number_in EDITION self }
    {
        let width = layout::class_bits(EDITION);
        let whole = self.region.whole;
        let class = self.region.class;
        let mut x = with_part(0, self.corner, width, 0);
        for j in 0..usize::from(editions::most_clocks(EDITION)) {
            x = with_part(x, class[j], width, layout::class_at(EDITION, j as u32));
            x = with_part(x, whole[j], 4, layout::whole_at(EDITION, j as u32));
        }
        with_part(x, self.location, 4, layout::location_at(EDITION))
    }
}
