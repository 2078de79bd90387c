// Parts of a line.
ghost use Rattle.std.specs.Prelude.{◌*◌, ◌<◌, ◌≤◌, length, IfSome};

// The value of a hexadecimal digit.
fn digit(byte: u8) -> Option<u8>
    ensures { IfSome result (λ d. d < 16) }
{
    match byte {
        b'0'..=b'9' => Some(byte - b'0'),
        b'a'..=b'f' => Some(byte - b'a' + 10),
        _ => None,
    }
}

fn digit_at(s: &[u8], at: usize) -> Option<u8>
    ensures { IfSome result (λ d. (d < 16) × (at < length s.now)) }
{
    digit(*s.get(at)?)
}

// Turns pairs of digits into bytes, and answers how many there are.
pub(crate) fn unhex(s: &[u8], out: &mut [u8]) -> usize
    requires { length out.old ≤ 4096 }
    ensures within { result ≤ length out.new }
    ensures read { 2 * result ≤ length s.now }
{
    for (n, byte) in out.iter_mut().enumerate() {
        let (Some(high), Some(low)) = (digit_at(s, 2 * n), digit_at(s, 2 * n + 1)) else {
            return n;
        };
        *byte = 16 * high + low;
    }
    out.len()
}

// A decimal number of 64 bits; one with more, or with other bytes, gives some other number.
pub(crate) fn decimal(s: &[u8]) -> u64 {
    let mut x: u64 = 0;
    for byte in s {
        x = (10 * (x % 1844674407370955162)).wrapping_add(digit(*byte).map_or(16, u64::from));
    }
    x
}
