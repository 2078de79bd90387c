// Answers, as they are printed.
use refusals::Refusal;
use region::Step;
use std::fmt;

// What the check answers: the number of its refusal, or 0.
#[derive(Drop)]
pub(crate) struct Checked(pub Result<(), Refusal>);

impl fmt::Display for Checked {
    fn fmt<W: fmt::Write>(&self, f: &mut fmt::Formatter<W>) -> fmt::Result {
        match self.0 {
            Ok(()) => f.write_str("0"),
            Err(refused) => write!(f, "{}", refused.number()),
        }
    }
}

// What a step answers: refusal, node, cost, reward and units.
#[derive(Drop)]
pub(crate) struct StepLine(pub Result<Step, Refusal>);

impl fmt::Display for StepLine {
    fn fmt<W: fmt::Write>(&self, f: &mut fmt::Formatter<W>) -> fmt::Result {
        match self.0 {
            Ok(s) => write!(f, "0 {} {} {} {}", s.number, s.cost, s.reward, s.units),
            Err(refused) => write!(f, "{} 0 0 0 0", refused.number()),
        }
    }
}
