// A record: its map, its length, and its fields by the map's bits.
ghost use Rattle.std.specs.Prelude.{◌≡◌, ◌+◌, ◌≤◌, ◌<◌, MatchOption};
ghost use Rattle.std.proofs.Math.Option.{none, some, get_or};
ghost use Rattle.sheet.specs.Fields.{field_of};
ghost use Rattle.sheet.specs.Maps.{stands};
ghost use Rattle.sheet.specs.Records.{map_bytes, head_bytes, map_of, record_length, field_place, value_at, field_at, edition_of};
ghost use Rattle.sheet.specs.Questions.{bit_good, field_good};

use sheet::fields::{Field, Kind};

// The length of the map.
fn map_bytes(kind: Kind) -> usize
    ensures { result ≡ map_bytes kind }
{
    match kind {
        Kind::LocationRecord => 1,
        Kind::EdgeRecord => 2,
    }
}

// The length of what stands before the first field: the map, and of an edge its source and its target. Two functions, as what a record has before its
// fields is two definitions: one that gives both would be taken apart at each call.
fn head_bytes(kind: Kind) -> usize
    ensures { result ≡ head_bytes kind }
{
    match kind {
        Kind::LocationRecord => 1,
        Kind::EdgeRecord => 4,
    }
}

// The map of the record that begins at a place.
pub(crate) fn map_at(sheet: &[u8], kind: Kind, at: usize) -> u32
    requires { at < 2048 }
    ensures { result ≡ map_of kind sheet.now at }
{
    match kind {
        Kind::LocationRecord => u32::from(crate::bytes::byte(sheet, at)),
        Kind::EdgeRecord => u32::from(crate::bytes::word(sheet, at)),
    }
}

// The record that begins at a place of a sheet, which may end before the record does. The map is kept, since every field is found by it.
// Each place that begins one writes its fields: a function for it would have to promise each of them again.
#[derive(Clone, Copy)]
pub(crate) struct Record<'a> {
    pub sheet: &'a [u8],
    pub kind: Kind,
    pub at: usize,
    pub map: u32,
    ghost near: { at < 2048 },
    ghost mapped: { map ≡ map_of kind sheet.now at },
}

impl<'a> Record<'a> {
    // Whether bit b of the map is set.
    pub(crate) fn has(&self, b: u32) -> bool
        requires { b < 32 }
        ensures { result ≡ stands (map_of self.now.kind self.now.sheet.now self.now.at) b }
    {
        (self.map >> b) & 1 != 0
    }

    // Where the map ends.
    pub(crate) fn map_end(&self) -> usize
        ensures { result ≡ self.now.at + map_bytes self.now.kind }
    {
        self.at + map_bytes(self.kind)
    }

    // Where the record ends, and the next one begins.
    pub(crate) fn end(&self) -> usize
        ensures { result ≡ self.now.at + record_length self.now.kind self.now.sheet.now self.now.at }
    {
        self.at + self.length()
    }

    pub(crate) fn length(&self) -> usize
        ensures { result ≡ record_length self.now.kind self.now.sheet.now self.now.at }
    {
        head_bytes(self.kind) + crate::bytes::bytes_below(self.map, 16)
    }

    // Where the field of bit b begins.
    fn field_place(&self, b: u32) -> usize
        requires { b ≤ 16 }
        ensures { result ≡ field_place self.now.kind self.now.sheet.now self.now.at b }
    {
        self.at + head_bytes(self.kind) + crate::bytes::bytes_below(self.map, b)
    }

    // The value of the field of bit b, in two bytes for a price and in one for the others.
    pub(crate) fn field(&self, b: u32) -> Option<u16>
        requires { b < 16 }
        ensures { MatchOption result (field_at self.now.kind self.now.sheet.now self.now.at b ≡ none)
            (λ v. field_at self.now.kind self.now.sheet.now self.now.at b ≡ some v) }
    {
        if !self.has(b) {
            return None;
        }
        let place = self.field_place(b);
        if b < 2 {
            Some(crate::bytes::word(self.sheet, place))
        } else {
            Some(u16::from(crate::bytes::byte(self.sheet, place)))
        }
    }

    // The price of bit b, 0 where it is absent.
    pub(crate) fn price(&self, b: u32) -> u16
        requires { b < 2 }
        ensures { result ≡ get_or (field_at self.now.kind self.now.sheet.now self.now.at b) 0 }
    {
        self.field(b).unwrap_or(0)
    }

    // The one byte of the field of bit b, or what stands for an absent one.
    pub(crate) fn byte(&self, b: u32, absent: u8) -> u8
        requires { (2 ≤ b) × (b < 16) }
        ensures { result ≡ get_or (field_at self.now.kind self.now.sheet.now self.now.at b) absent }
    {
        if self.has(b) {
            crate::bytes::byte(self.sheet, self.field_place(b))
        } else {
            absent
        }
    }

    // Whether bit b is clear or permitted.
    #[tactic(auto, unfolding(sheet::specs::Questions::bit_good))]
    pub(crate) fn bit_good(&self, clocks: u32, b: u32) -> bool
        requires { b < 16 }
        ensures { result ≡ bit_good (edition_of self.now.sheet.now) self.now.kind clocks (map_of self.now.kind self.now.sheet.now self.now.at) b }
    {
        !self.has(b) || crate::fields::permitted(self.meaning(b), clocks)
    }

    // What bit b stands for.
    fn meaning(&self, b: u32) -> Field
        ensures { result ≡ field_of (edition_of self.now.sheet.now) self.now.kind b }
    {
        crate::fields::field_of(crate::bytes::byte(self.sheet, 0), self.kind, b)
    }

    // Whether the field of bit b is absent or in range.
    pub(crate) fn field_good(&self, clocks: u32, b: u32) -> bool
        requires { (clocks ≤ 4) × (b < 16) }
        ensures { result ≡ field_good self.now.kind clocks self.now.sheet.now self.now.at b }
    {
        match self.field(b) {
            None => true,
            Some(v) => crate::fields::in_range(self.meaning(b), clocks, v),
        }
    }
}
