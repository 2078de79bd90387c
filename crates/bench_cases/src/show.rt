// An answer, as it is printed.
use planner::Plan;
use refusals::Refusal;
use std::fmt::{self, Display};

// The ratio and the number of nodes, or the number of the refusal.
#[derive(Drop)]
pub(crate) struct Answer(pub(crate) Result<Plan, Refusal>);

impl Display for Answer {
    fn fmt<W: fmt::Write>(&self, f: &mut fmt::Formatter<W>) -> fmt::Result {
        match self.0 {
            Ok(Plan { p, q, n, .. }) => write!(f, "ratio {p} {q}, nodes {n}"),
            Err(refusal) => write!(f, "refused {}", refusal.number()),
        }
    }
}
