// The questions that a sheet, a step or a plan is refused by.
#![tactic(auto)]

ghost use Rattle.std.specs.Prelude.{◌≡◌};
ghost use Rattle.refusals.specs.Numbers.{number_of, refusal_at};

// Each by the number of its question.
#[derive(Clone, Copy, Debug, PartialEq, Eq)]
pub enum Refusal {
    ShortBuffer = 1,
    Length,
    Edition,
    Counts,
    MissingBytes,
    ForbiddenField,
    MissingBound,
    OutOfRange,
    NoSuchLocation,
    UnusedBytes,
    StartOutside,
    TooManyNodes,
    NoneEarns,
    IdleGain,
    NoNode,
    NotAllowed,
    EqualEdges,
    Strict,
}

impl Refusal {
    pub fn number(self) -> u8
        ensures { result ≡ number_of self }
    {
        self as u8
    }

    // The refusal of a number: 0 has none, and neither has a number above 18.
    pub fn numbered(number: u8) -> Option<Refusal>
        ensures { result ≡ refusal_at number }
    {
        match number {
            0 => None,
            1 => Some(Refusal::ShortBuffer),
            2 => Some(Refusal::Length),
            3 => Some(Refusal::Edition),
            4 => Some(Refusal::Counts),
            5 => Some(Refusal::MissingBytes),
            6 => Some(Refusal::ForbiddenField),
            7 => Some(Refusal::MissingBound),
            8 => Some(Refusal::OutOfRange),
            9 => Some(Refusal::NoSuchLocation),
            10 => Some(Refusal::UnusedBytes),
            11 => Some(Refusal::StartOutside),
            12 => Some(Refusal::TooManyNodes),
            13 => Some(Refusal::NoneEarns),
            14 => Some(Refusal::IdleGain),
            15 => Some(Refusal::NoNode),
            16 => Some(Refusal::NotAllowed),
            17 => Some(Refusal::EqualEdges),
            18 => Some(Refusal::Strict),
            19..=255 => None,
        }
    }
}
