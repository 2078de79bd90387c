// What the bits of a record's map stand for, and the values that may stand there.
ghost use Rattle.std.specs.Prelude.{◌≡◌, ◌≤◌};
ghost use Rattle.sheet.specs.Fields.{edition_at, field_of, permitted_field, in_range, cost_in_range, is_within};

use sheet::fields::{Field, Kind};

// The field that bit b stands for.
pub(crate) fn field_of(edition: u8, kind: Kind, b: u32) -> Field
    ensures { result ≡ field_of (edition_at edition) kind b }
{
    let most = u32::from(editions::most_clocks(edition));
    match kind {
        Kind::LocationRecord => match b {
            0 => Field::Cost,
            1 => Field::Reward,
            _ if b < 2 + most => Field::Upper(b - 2),
            _ => Field::Unused,
        },
        Kind::EdgeRecord => match b {
            0 => Field::Cost,
            1 => Field::Reward,
            2 => Field::Reset,
            _ if b < 3 + most => Field::Lower(b - 3),
            _ if b < 3 + most + most => Field::Upper(b - (3 + most)),
            _ => Field::Unused,
        },
    }
}

// Whether a sheet with this number of clocks may have the field.
#[tactic(auto, unfolding(sheet::specs::Fields::permitted_field))]
pub(crate) fn permitted(field: Field, clocks: u32) -> bool
    ensures { result ≡ permitted_field clocks field }
{
    match field {
        Field::Cost | Field::Reward | Field::Reset => true,
        Field::Lower(j) | Field::Upper(j) => j < clocks,
        Field::Unused => false,
    }
}

// Whether v lies between low and high, both included.
pub(crate) fn is_within(v: usize, low: usize, high: usize) -> bool
    ensures { result ≡ is_within v low high }
{
    (low..=high).contains(&v)
}

// A cost that is written is not 0.
#[tactic(auto, unfolding(sheet::specs::Fields::cost_in_range))]
fn cost_in_range(z: i16) -> bool
    ensures { result ≡ cost_in_range z }
{
    let size = z.unsigned_abs();
    size != 0 && size <= 10000
}

// Question 8: whether a field may have the value v.
#[tactic(auto, unfolding(sheet::specs::Fields::in_range), using(sheet::proofs::MapLaws::one_shl))]
pub(crate) fn in_range(field: Field, clocks: u32, v: u16) -> bool
    requires { clocks ≤ 4 }
    ensures { result ≡ in_range clocks field v }
{
    match field {
        Field::Cost => cost_in_range(crate::bytes::signed(v)),
        Field::Reward => (1..=10000).contains(&v),
        Field::Reset => (1..=(1u16 << clocks) - 1).contains(&v),
        Field::Lower(_) => (1..=25).contains(&v),
        Field::Upper(_) => v <= 25,
        Field::Unused => false,
    }
}
