// A work plan, as it is printed.
use refusals::Refusal;
use std::fmt::{self, Display};
use work::Lengths;

// The pairs of the stem and of the cycle, or the number of the refusal.
#[derive(Drop)]
pub(crate) struct Answer<'a> {
    pub result: Result<Lengths, Refusal>,
    pub waits: &'a [u16],
    pub edges: &'a [u16],
}

impl Display for Answer<'_> {
    fn fmt<W: fmt::Write>(&self, f: &mut fmt::Formatter<W>) -> fmt::Result {
        match self.result {
            Ok(Lengths { stem, cycle }) => {
                let stem = usize::from(stem);
                let cycle = usize::from(cycle);
                f.write_str("stem")?;
                for (wait, edge) in self.waits.iter().zip(self.edges).take(stem) {
                    write!(f, " ({wait}, {edge})")?;
                }
                f.write_str(", cycle")?;
                for (wait, edge) in self.waits.iter().zip(self.edges).skip(stem).take(cycle) {
                    write!(f, " ({wait}, {edge})")?;
                }
                Ok(())
            }
            Err(refusal) => write!(f, "refused {}", refusal.number()),
        }
    }
}
