// The pairs of step codes.
ghost use Rattle.std.specs.Prelude.{◌≡◌};
ghost use Rattle.work.specs.Writer.{pairs_in, SamePairLists};
ghost use Rattle.work.specs.PrivatePromises.{RoomFrom, PairsWritten};

// The pairs' waits and edge numbers, how many are written, and the units of the next one's wait so far.
#[derive(Drop)]
pub(crate) struct PairWriter<'a> {
    pub waits: &'a mut [u16],
    pub edges: &'a mut [u16],
    pub count: usize,
    pub wait: u16,
}

impl PairWriter<'_> {
    // Writes the pairs of codes. A region move takes no time.
    pub(crate) fn write(&mut self, codes: &[u16])
        requires { RoomFrom (pairs_in self.old) self.old.count self.old.wait codes.now }
        ensures same { SamePairLists self.old self.new }
        ensures written { PairsWritten (pairs_in self.old) (pairs_in self.new) self.old.count self.old.wait codes.now
            self.new.count self.new.wait }
    {
        let mut wait = self.wait;
        for code in codes {
            match *code {
                0..=31 => {
                    self.waits[self.count] = wait;
                    self.edges[self.count] = *code;
                    self.count += 1;
                    wait = 0;
                }
                32 => {
                    wait += 1;
                }
                33 => {}
                // No step has another code.
                _ => {}
            }
        }
        self.wait = wait;
    }
}
