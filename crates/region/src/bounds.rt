// Bounds and guards: whether they hold in a whole region.
ghost use Rattle.std.specs.Prelude.{◌≡◌};
ghost use Rattle.automaton.specs.Bounds.{interval, upper_holds};
ghost use Rattle.region.specs.Arrays.{guard_holds, guards_in, bounds_in};

use crate::Region;

// The number of a clock's interval.
pub(crate) fn interval_of(h: u8, k: u8) -> u16
    ensures { result ≡ interval h k }
{
    let twice = 2 * u16::from(h);
    if k == 0 { twice } else { twice + 1 }
}

// Whether an upper byte holds in an interval.
fn upper_holds(upper: u8, i: u16) -> bool
    ensures { result ≡ upper_holds upper i }
{
    i < u16::from(upper)
}

// Whether a lower byte and an upper one, 255 for an absent one, hold in an interval.
fn guard_holds(lower: u8, upper: u8, i: u16) -> bool
    ensures { result ≡ guard_holds lower upper i }
{
    if i < u16::from(lower) {
        return false;
    }
    if upper == 255 {
        return true;
    }
    upper_holds(upper, i)
}

// The first clocks are asked by their index: with zipped arrays plans with many arcs took 2 to 4 per cent more instructions.
impl Region {
    // Whether the region lies within the upper bytes of its clocks.
    pub(crate) fn inside(self, upper: [u8; 4], clocks: usize) -> bool
        ensures { result ≡ bounds_in upper clocks self }
    {
        let whole = self.whole;
        let class = self.class;
        (0..clocks.min(4)).all(|j| upper_holds(upper[j], interval_of(whole[j], class[j])))
    }

    // Whether the guards of an edge hold in the whole region.
    pub(crate) fn guards_hold(self, lower: [u8; 4], upper: [u8; 4], clocks: usize) -> bool
        ensures { result ≡ guards_in lower upper clocks self }
    {
        let whole = self.whole;
        let class = self.class;
        (0..clocks.min(4)).all(|j| guard_holds(lower[j], upper[j], interval_of(whole[j], class[j])))
    }
}
