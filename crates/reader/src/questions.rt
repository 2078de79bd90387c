// The questions put to a sheet, in their order: each function answers the first that is answered no.
// The loops over records, bits and clocks are those that the specification names, left by a label with the refusal (docs/DECISIONS.md, "Forms of the code").
ghost use Rattle.std.specs.Prelude.{◌≡◌, ◌≤◌, ◌<◌, ◌&&◌, IfOk};
ghost use Rattle.refusals.specs.Numbers.{refusal_of};
ghost use Rattle.sheet.specs.Fields.{edition_at, is_within};
ghost use Rattle.sheet.specs.Records.{record_at};
ghost use Rattle.sheet.specs.Questions.{map_refusal, bounds_refusal, fields_refusal, ends_refusal, record_refusal, first_of, start_refusal, records_refusal, check_of};
ghost use Rattle.sheet.specs.declared.fields.Kind.TheVariants.{LocationRecord};

use crate::counts::Counts;
use crate::record::{Record, map_at};
use refusals::Refusal;
use sheet::fields::Kind;

impl<'a> Record<'a> {
    // Questions 5, 6 and 5 again of a record: the map, its bits, and the bytes that it calls for.
    // Inlined for each kind, so that the bits' loop is compiled for its fields: shared, it takes a tenth more of the check.
    #[inline(always)]
    fn check_map(&self, counts: Counts) -> Result<(), Refusal>
        ensures { refusal_of result ≡ map_refusal self.now.kind counts.clocks self.now.sheet.now self.now.at }
    {
        let refusal = 'map: {
            if self.sheet.len() < self.map_end() {
                break 'map Err(Refusal::MissingBytes);
            }
            for b in 0..16u32 {
                if !self.bit_good(counts.clocks, b) {
                    break 'map Err(Refusal::ForbiddenField);
                }
            }
            if self.sheet.len() < self.end() {
                break 'map Err(Refusal::MissingBytes);
            }
            Ok(())
        };
        refusal
    }

    // Question 7 of a location: a bound stands for each clock.
    fn check_bounds(&self, counts: Counts) -> Result<(), Refusal>
        requires { self.now.kind ≡ LocationRecord }
        ensures { refusal_of result ≡ bounds_refusal counts.clocks self.now.sheet.now self.now.at }
    {
        let refusal = 'bounds: {
            // The least of both is the number of clocks: a loop without a bound is compiled with a table of constants.
            for j in 0..counts.clocks.min(4) {
                if !self.has(2 + j) {
                    break 'bounds Err(Refusal::MissingBound);
                }
            }
            Ok(())
        };
        refusal
    }

    // Question 8 of a record: each field is in range.
    fn check_fields(&self, counts: Counts) -> Result<(), Refusal>
        ensures { refusal_of result ≡ fields_refusal self.now.kind counts.clocks self.now.sheet.now self.now.at }
    {
        let refusal = 'fields: {
            for b in 0..16u32 {
                if !self.field_good(counts.clocks, b) {
                    break 'fields Err(Refusal::OutOfRange);
                }
            }
            Ok(())
        };
        refusal
    }

    // Question 9 of an edge: its source and its target are locations.
    #[tactic(auto, unfolding(sheet::specs::Questions::ends_refusal))]
    fn check_ends(&self, counts: Counts) -> Result<(), Refusal>
        ensures { refusal_of result ≡ ends_refusal counts.locations self.now.sheet.now self.now.at }
    {
        let source = usize::from(crate::bytes::byte(self.sheet, self.at + 2));
        let target = usize::from(crate::bytes::byte(self.sheet, self.at + 3));
        if counts.locations <= source || counts.locations <= target {
            return Err(Refusal::NoSuchLocation);
        }
        Ok(())
    }

    // Questions 5 to 9 of a record: 7 is asked of a location, and 9 of an edge.
    #[inline(always)]
    fn check(&self, counts: Counts) -> Result<(), Refusal>
        ensures { refusal_of result ≡ record_refusal self.now.kind counts.clocks counts.locations self.now.sheet.now self.now.at }
    {
        self.check_map(counts)?;
        match self.kind {
            Kind::LocationRecord => {
                self.check_bounds(counts)?;
                self.check_fields(counts)
            }
            Kind::EdgeRecord => {
                self.check_fields(counts)?;
                self.check_ends(counts)
            }
        }
    }
}

// Questions 5 to 9 of each record of a kind in turn, and where the last one ends.
// A loop of its own for each kind takes four fifths of the time (docs/DECISIONS.md, "Forms of the code").
#[inline(always)]
fn check_each(
    sheet: &[u8],
    kind: Kind,
    from: usize,
    count: usize,
    counts: Counts,
) -> Result<usize, Refusal>
    requires { (from < 1024) × (count ≤ 32) }
    ensures refused { refusal_of result
        ≡ first_of count (λ i. record_refusal kind counts.clocks counts.locations sheet.now (record_at kind sheet.now from i)) }
    ensures passed { IfOk result (λ end. end ≡ record_at kind sheet.now from count) }
{
    let mut at = from;
    let end = 'records: {
        for i in 0..count {
            let map = map_at(sheet, kind, at);
            let record = Record {
                sheet,
                kind,
                at,
                map,
            };
            if let Err(refused) = record.check(counts) {
                break 'records Err(refused);
            }
            at = record.end();
        }
        Ok(at)
    };
    end
}

// Question 11: location 0's bounds admit all clocks at 0. An upper byte 0 is a bound below 0.
fn check_start(sheet: &[u8], counts: Counts) -> Result<(), Refusal>
    ensures { refusal_of result ≡ start_refusal counts.clocks sheet.now }
{
    let map = map_at(sheet, Kind::LocationRecord, 4);
    let first = Record {
        sheet,
        kind: Kind::LocationRecord,
        at: 4,
        map,
    };
    let refusal = 'start: {
        for j in 0..counts.clocks {
            if first.byte(2 + j, 0) == 0 {
                break 'start Err(Refusal::StartOutside);
            }
        }
        Ok(())
    };
    refusal
}

// Questions 5 to 10, 17 and 11: each record in turn, then what follows the last.
// By itself, so that a header which is refused pays for none of its registers and keys.
#[inline(never)]
fn check_records(sheet: &[u8], counts: Counts) -> Result<(), Refusal>
    ensures { refusal_of result ≡ records_refusal counts.clocks counts.locations counts.edges sheet.now }
{
    let from = check_each(sheet, Kind::LocationRecord, 4, counts.locations, counts)?;
    let end = check_each(sheet, Kind::EdgeRecord, from, counts.edges, counts)?;
    if end != sheet.len() {
        return Err(Refusal::UnusedBytes);
    }
    crate::distinct::check_distinct(sheet, from, counts.edges)?;
    check_start(sheet, counts)
}

// Question 4 of a header.
// `explore` tests the counts of any decoded sheet, and its list of conditions has no order: the two have contracts of their own.
fn counts_in_range(edition: u8, locations: usize, clocks: usize, edges: usize) -> bool
    ensures { result ≡ (is_within locations 1 12 && (is_within clocks 1 (edition_at edition).clocks && is_within edges 0 32)) }
{
    let most = usize::from(editions::most_clocks(edition));
    crate::fields::is_within(locations, 1, 12)
        && crate::fields::is_within(clocks, 1, most)
        && edges <= 32
}

// All of them: 2 to 10, 17 and 11.
pub(crate) fn check(sheet: &[u8]) -> Result<(), Refusal>
    ensures { refusal_of result ≡ check_of sheet.now }
{
    if !crate::fields::is_within(sheet.len(), 4, 656) {
        return Err(Refusal::Length);
    }
    let edition = sheet[0];
    if !crate::fields::is_within(usize::from(edition), 1, 2) {
        return Err(Refusal::Edition);
    }
    let locations = usize::from(sheet[1]);
    let clocks = usize::from(sheet[2]);
    let edges = usize::from(sheet[3]);
    if !counts_in_range(edition, locations, clocks, edges) {
        return Err(Refusal::Counts);
    }
    let counts = Counts {
        locations,
        clocks: clocks as u32,
        edges,
    };
    check_records(sheet, counts)
}
