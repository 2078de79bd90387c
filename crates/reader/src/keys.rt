// What edge records are compared by.
ghost use Rattle.std.specs.Prelude.{◌≡◌, ◌+◌, ◌≤◌, ◌<◌, length};
ghost use Rattle.sheet.specs.Records.{record_length};
ghost use Rattle.sheet.specs.Keys.{four_at, eight_at, side_of, side_at, key_of};
ghost use Rattle.sheet.specs.declared.fields.Kind.TheVariants.{EdgeRecord};

use crate::record::Record;
use sheet::keys::Key;

// Four bytes as one number. No trait of the library has `from_be_bytes`: one generic function for four and eight bytes would need a trait for this alone.
fn four(s: &[u8], at: usize) -> u32
    requires { at + 4 ≤ length s.now }
    ensures { result ≡ four_at s.now at }
{
    u32::from_be_bytes([s[at], s[at + 1], s[at + 2], s[at + 3]])
}

// Eight bytes as one number.
fn eight(s: &[u8], at: usize) -> u64
    requires { at + 8 ≤ length s.now }
    ensures { result ≡ eight_at s.now at }
{
    u64::from_be_bytes([
        s[at],
        s[at + 1],
        s[at + 2],
        s[at + 3],
        s[at + 4],
        s[at + 5],
        s[at + 6],
        s[at + 7],
    ])
}

// How many bytes of a record of `count` are taken at either end.
fn side(count: usize) -> usize
    ensures { result ≡ side_of count }
{
    if count < 8 { 4 } else { 8 }
}

// The bytes from a place on that are taken of a record of `count`, as one number.
fn side_at(s: &[u8], at: usize, count: usize) -> u64
    requires { at + side_of count ≤ length s.now }
    ensures { result ≡ side_at s.now at count }
{
    if count < 8 {
        u64::from(four(s, at))
    } else {
        eight(s, at)
    }
}

impl<'a> Record<'a> {
    // What an edge record is compared by.
    pub(crate) fn key(&self) -> Key
        requires edge { self.now.kind ≡ EdgeRecord }
        requires room { self.now.at + record_length EdgeRecord self.now.sheet.now self.now.at ≤ length self.now.sheet.now }
        ensures { result ≡ key_of self.now.sheet.now self.now.at }
    {
        let at = self.at;
        let length = self.length();
        let front = side_at(self.sheet, at, length);
        let back = side_at(self.sheet, at + (length - side(length)), length);
        Key {
            at,
            length,
            front,
            back,
        }
    }
}
