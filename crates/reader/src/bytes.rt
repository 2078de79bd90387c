// Bytes, words and maps of bits.
ghost use Rattle.std.specs.Prelude.{◌≡◌, ◌+◌, ◌<◌, ◌≤◌};
ghost use Rattle.std.specs.Int.Bits.{bit_and};
ghost use Rattle.std.specs.Int.Count.{ones};
ghost use Rattle.sheet.specs.Bytes.{byte_at, word_at, signed_of};
ghost use Rattle.sheet.specs.Maps.{place_of};

// The byte at a place, 0 past the end.
pub(crate) fn byte(s: &[u8], at: usize) -> u8
    ensures { result ≡ byte_at s.now at }
{
    s.get(at).copied().unwrap_or(0)
}

// Two bytes, the lower one first.
pub(crate) fn word(s: &[u8], at: usize) -> u16
    requires { at < 4096 }
    ensures { result ≡ word_at s.now at }
{
    u16::from_le_bytes([byte(s, at), byte(s, at + 1)])
}

// A word read as a signed number.
pub(crate) fn signed(u: u16) -> i16
    ensures { result ≡ signed_of u }
{
    u.cast_signed()
}

// Bytes of the fields whose bits are set, under a mask: a price, bit 0 or 1, takes two.
fn bytes_under(map: u32, mask: u32) -> u32
    ensures { result ≡ ones (bit_and map mask) + ones (bit_and (bit_and map mask) 3) }
{
    (map & mask).count_ones() + (map & mask & 3).count_ones()
}

// Where the field of bit b begins, counted from the first field.
pub(crate) fn bytes_below(map: u32, b: u32) -> usize
    requires { b ≤ 16 }
    ensures { result ≡ place_of map b }
{
    bytes_under(map, (1u32 << b) - 1) as usize
}
