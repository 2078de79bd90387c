// The classes of a region: which occur, and the largest.
ghost use Rattle.std.specs.Prelude.{◌≡◌, take};
ghost use Rattle.automaton.specs.Tests.{occurs};
ghost use Rattle.automaton.specs.Ranks.{largest};

use crate::Region;

impl Region {
    // Whether a class occurs among the first clocks.
    pub(crate) fn has_class(self, v: u8, clocks: usize) -> bool
        ensures { result ≡ occurs v (take clocks self.class) }
    {
        let class = self.class;
        class.iter().take(clocks).any(|k| v == *k)
    }

    pub(crate) fn largest(self) -> u8
        ensures { result ≡ largest self.class }
    {
        let class = self.class;
        class[0].max(class[1]).max(class[2]).max(class[3])
    }
}
