// Question 17: no two edge records are the same bytes.
ghost use Rattle.std.specs.Prelude.{◌≡◌, ◌+◌, ◌≤◌, ◌<◌, eqb, length};
ghost use Rattle.refusals.specs.Numbers.{refusal_of};
ghost use Rattle.sheet.specs.Bytes.{byte_at};
ghost use Rattle.sheet.specs.Records.{record_at};
ghost use Rattle.sheet.specs.Questions.{each, same_record, distinct_refusal};
ghost use Rattle.sheet.specs.Keys.{key_of};
ghost use Rattle.sheet.specs.declared.fields.Kind.TheVariants.{EdgeRecord};

use crate::record::{Record, map_at};
use refusals::Refusal;
use sheet::fields::Kind;
use sheet::keys::Key;

// Whether `count` bytes from x on are those from y on. The specification names this loop, left by its label.
fn same_bytes(s: &[u8], x: usize, y: usize, count: usize) -> bool
    requires { (x < 2048) × ((y < 2048) × (count < 2048)) }
    ensures { result ≡ each count (λ i. eqb (byte_at s.now (x + i)) (byte_at s.now (y + i))) }
{
    let same = 'bytes: {
        for i in 0..count {
            if crate::bytes::byte(s, x + i) != crate::bytes::byte(s, y + i) {
                break 'bytes false;
            }
        }
        true
    };
    same
}

// Whether two edge records are the same bytes. Where their keys differ they are not. Where they are equal the bytes decide, so that nothing has
// to be proved of keys but that the same bytes give the same ones. The map, which gives the length, is among the bytes of either.
fn same_record(s: &[u8], x: Key, y: Key) -> bool
    requires keys { (x ≡ key_of s.now x.at) × (y ≡ key_of s.now y.at) }
    requires places { (x.at < 2048) × (y.at < 2048) }
    ensures { result ≡ same_record s.now x.at y.at }
{
    if x.front != y.front {
        return false;
    }
    if x.back != y.back {
        return false;
    }
    same_bytes(s, x.at, y.at, y.length)
}

// Question 17 of the edge records from a place on: each is compared with those before it.
pub(crate) fn check_distinct(sheet: &[u8], from: usize, edges: usize) -> Result<(), Refusal>
    requires in_sheet { (from < 1024) × (edges ≤ 32) }
    requires room { record_at EdgeRecord sheet.now from edges ≤ length sheet.now }
    ensures { refusal_of result ≡ distinct_refusal edges sheet.now from }
{
    let mut keys = [Key::default(); 32];
    let mut at = from;
    let refusal = 'pairs: {
        for j in 0..edges {
            let map = map_at(sheet, Kind::EdgeRecord, at);
            let edge = Record {
                sheet,
                kind: Kind::EdgeRecord,
                at,
                map,
            };
            let key = edge.key();
            for i in 0..j {
                if same_record(sheet, keys[i], key) {
                    break 'pairs Err(Refusal::EqualEdges);
                }
            }
            keys[j] = key;
            at = at + key.length;
        }
        Ok(())
    };
    refusal
}
