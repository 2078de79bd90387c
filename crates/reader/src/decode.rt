// A sheet's records by value. Where the check has passed, each field is there that is read here.
ghost use Rattle.std.specs.Prelude.{◌≡◌, ◌≤◌, ◌<◌};
ghost use Rattle.refusals.specs.Numbers.{number_of};
ghost use Rattle.sheet.specs.Records.{record_at, location_at};
ghost use Rattle.sheet.specs.Questions.{check_of};
ghost use Rattle.sheet.specs.Decoded.{clock_bytes, location_of, edge_of, locations_of, edges_of, refused_sheet, decoded_sheet};
ghost use Rattle.sheet.specs.declared.fields.Kind.TheVariants.{LocationRecord, EdgeRecord};

use crate::record::{Record, map_at};
use refusals::Refusal;
use sheet::fields::Kind;
use sheet::{Edge, Location, Sheet};
use std::array;

impl<'a> Record<'a> {
    // One byte for each clock: of those that the edition has the field, from bit b on, and of the others what stands for an absent one.
    fn clock_bytes(&self, b: u32, absent: u8) -> [u8; 4]
        requires { (2 ≤ b) × (b < 12) }
        ensures { result ≡ clock_bytes self.now.kind self.now.sheet.now self.now.at b absent }
    {
        let most = usize::from(editions::most_clocks(crate::bytes::byte(self.sheet, 0)));
        array::from_fn(|j| {
            if j < most {
                self.byte(b + j as u32, absent)
            } else {
                absent
            }
        })
    }

    fn location(&self) -> Location
        requires { self.now.kind ≡ LocationRecord }
        ensures { result ≡ location_of self.now.sheet.now self.now.at }
    {
        Location {
            cost: crate::bytes::signed(self.price(0)),
            reward: self.price(1),
            upper: self.clock_bytes(2, 0),
        }
    }

    fn edge(&self) -> Edge
        requires { self.now.kind ≡ EdgeRecord }
        ensures { result ≡ edge_of self.now.sheet.now self.now.at }
    {
        let most = u32::from(editions::most_clocks(crate::bytes::byte(self.sheet, 0)));
        Edge {
            source: crate::bytes::byte(self.sheet, self.at + 2),
            target: crate::bytes::byte(self.sheet, self.at + 3),
            cost: crate::bytes::signed(self.price(0)),
            reward: self.price(1),
            reset: self.byte(2, 0),
            lower: self.clock_bytes(3, 0),
            upper: self.clock_bytes(3 + most, 255),
        }
    }
}

// The location records, blank ones after them, and where the last of them ends. By index, here and for edges: of what a loop over `iter_mut().take(count)`
// writes the library promises nothing.
fn read_locations(sheet: &[u8], count: usize) -> ([Location; 12], usize)
    requires { count ≤ 12 }
    ensures all { result.0 ≡ locations_of sheet.now count }
    ensures end { result.1 ≡ location_at sheet.now count }
{
    let mut all = [Location::default(); 12];
    let mut at: usize = 4;
    for i in 0..count {
        let map = map_at(sheet, Kind::LocationRecord, at);
        let record = Record {
            sheet,
            kind: Kind::LocationRecord,
            at,
            map,
        };
        all[i] = record.location();
        at = record.end();
    }
    (all, at)
}

// The edge records from a place on, blank ones after them. One function for both kinds would be no plainer: what is read, its definition, the kind and
// the number of entries differ.
fn read_edges(sheet: &[u8], from: usize, count: usize) -> [Edge; 32]
    requires { (from < 1024) × (count ≤ 32) }
    ensures { result ≡ edges_of sheet.now from count }
{
    let mut all = [Edge::default(); 32];
    let mut at = from;
    for e in 0..count {
        let map = map_at(sheet, Kind::EdgeRecord, at);
        let record = Record {
            sheet,
            kind: Kind::EdgeRecord,
            at,
            map,
        };
        all[e] = record.edge();
        at = record.end();
    }
    all
}

// A refusal, with nothing read.
pub(crate) fn refused(refusal: Refusal) -> Sheet
    ensures { result ≡ refused_sheet (number_of refusal) }
{
    Sheet {
        refusal: refusal.number(),
        edition: 0,
        locations: 0,
        clocks: 0,
        edges: 0,
        location: [Location::default(); 12],
        edge: [Edge::default(); 32],
    }
}

// What a sheet holds that passes the check.
pub(crate) fn decoded(sheet: &[u8]) -> Sheet
    requires { check_of sheet.now ≡ 0 }
    ensures { result ≡ decoded_sheet sheet.now }
{
    let locations = crate::bytes::byte(sheet, 1);
    let edges = crate::bytes::byte(sheet, 3);
    let (location, from) = read_locations(sheet, usize::from(locations));
    let edge = read_edges(sheet, from, usize::from(edges));
    Sheet {
        refusal: 0,
        edition: crate::bytes::byte(sheet, 0),
        locations,
        clocks: crate::bytes::byte(sheet, 2),
        edges,
        location,
        edge,
    }
}
