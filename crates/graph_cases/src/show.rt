// Answers and buffers, printed.
use std::fmt::{self, Display};
use walks::Malformed;

// The number of a cycle's arcs, or none where there are the potentials.
#[derive(Drop)]
pub(crate) struct Answer(pub(crate) Result<Option<usize>, Malformed>);

impl Display for Answer {
    fn fmt<W: fmt::Write>(&self, f: &mut fmt::Formatter<W>) -> fmt::Result {
        match self.0 {
            Err(Malformed) => f.write_str("malformed"),
            Ok(Some(arcs)) => write!(f, "cycle {arcs}"),
            Ok(None) => f.write_str("potentials"),
        }
    }
}

// A potential, or "none" for a node that is not reached.
#[derive(Clone, Copy)]
struct Potential(i64);

impl Display for Potential {
    fn fmt<W: fmt::Write>(&self, f: &mut fmt::Formatter<W>) -> fmt::Result {
        let z = self.0;
        if z == 1152921504606846976 {
            return f.write_str("none");
        }
        write!(f, "{z}")
    }
}

// The first entries of a buffer.
#[derive(Clone, Copy)]
pub(crate) struct Potentials<'a>(pub(crate) &'a [i64]);

impl Display for Potentials<'_> {
    fn fmt<W: fmt::Write>(&self, f: &mut fmt::Formatter<W>) -> fmt::Result {
        for z in self.0.iter().take(5) {
            write!(f, " {}", Potential(*z))?;
        }
        Ok(())
    }
}

#[derive(Clone, Copy)]
pub(crate) struct Cycle<'a>(pub(crate) &'a [usize]);

impl Display for Cycle<'_> {
    fn fmt<W: fmt::Write>(&self, f: &mut fmt::Formatter<W>) -> fmt::Result {
        for arc in self.0.iter().take(5) {
            write!(f, " {arc}")?;
        }
        Ok(())
    }
}
