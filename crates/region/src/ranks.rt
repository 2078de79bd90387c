// Ranks of classes: how many of the values 1 to t occur, for all t below 8 by one product, and closing up.
ghost use Rattle.std.specs.Prelude.{◌≡◌, ℕ, ◌<◌, get_or};
ghost use Rattle.automaton.specs.Ranks.{rank, close_up};
ghost use Rattle.nodes.specs.Numbers.{bits_of};
ghost use Rattle.region.specs.Arrays.{value_digits, rank_digits};

use std::array;

// The classes, and a hexadecimal digit for each t below 8: its rank among them.
#[derive(Clone, Copy)]
pub(crate) struct Ranks {
    class: [u8; 4],
    digits: u32,
    ghost low: { (j : ℕ) → get_or class j 0 < 8 },
    ghost ranked: { digits ≡ rank_digits class },
}

// A hexadecimal digit for each value below 8: 1 where it occurs.
fn value_digits(class: [u8; 4]) -> u32
    requires { (j : ℕ) → get_or class j 0 < 8 }
    ensures { result ≡ value_digits class }
{
    let mut digits: u32 = 0;
    for k in class {
        digits |= 1 << (4 * u32::from(k));
    }
    digits
}

impl Ranks {
    // The product adds the digit of each value, but for that of 0, to its own place and to all above it.
    pub(crate) fn of(class: [u8; 4]) -> Ranks
        requires { (j : ℕ) → get_or class j 0 < 8 }
        ensures { result.class ≡ class }
    {
        let above_0 = u64::from(value_digits(class) & 0xffff_fff0);
        let digits = (above_0 * 0x1111_1111 % 0x1_0000_0000) as u32;
        Ranks { class, digits }
    }

    // How many of the values 1 to t occur.
    pub(crate) fn rank(self, t: u8) -> u8
        requires { t < 8 }
        ensures { result ≡ rank self.class t }
    {
        crate::numbers::bits(u64::from(self.digits), 4, 4 * u32::from(t))
    }

    // Emptied ranks close up.
    pub(crate) fn closed_up(self) -> [u8; 4]
        ensures { result ≡ close_up self.class }
    {
        let class = self.class;
        array::from_fn(|j| self.rank(class[j]))
    }
}
