// An input, read into a buffer.
#![tactic(auto)]

ghost use Rattle.std.specs.Prelude.{◌<◌, ◌≤◌, length, take, IfOk};
ghost use Rattle.std.specs.Io.KnownBytes.{Consumes, IsAtEnd};

use std::io;
use std::io::Read;

// Reads until the buffer is full or the input ends, and returns how many bytes were read. They stand at the buffer's start.
pub fn read_full<R: Read>(input: &mut R, buffer: &mut [u8]) -> io::Result<usize>
    ensures within { IfOk result (λ n. n ≤ length buffer.new) }
    ensures bytes { IfOk result (λ n. Consumes (R.remaining input.old) (R.remaining input.new) (take n buffer.new)) }
    ensures short_only_at_end { IfOk result (λ n. n < length buffer.new → IsAtEnd (R.remaining input.new)) }
{
    let mut done = 0;
    while done < buffer.len() {
        let n = input.read(&mut buffer[done..])?;
        if n == 0 {
            break;
        }
        done += n;
    }
    Ok(done)
}

#[cfg(test)]
mod tests {
    use super::*;
    use std::io::{Error, ErrorKind};
    use std::test::Fail;

    // Gives at most three bytes at a time, and fails once none are left, if it is to.
    #[derive(Drop)]
    struct Trickle<'a> {
        left: &'a [u8],
        fails: bool,
    }

    impl Read for Trickle<'_> {
        fn read(&mut self, buf: &mut [u8]) -> io::Result<usize> {
            let n = buf.len().min(self.left.len()).min(3);
            if n == 0 && self.fails {
                return Err(Error::from(ErrorKind::BrokenPipe));
            }
            buf[..n].copy_from_slice(&self.left[..n]);
            self.left = &self.left[n..];
            Ok(n)
        }
    }

    #[test]
    fn fills_the_buffer_by_short_reads(rt: HostRuntime) -> Result<(), Fail> {
        let mut input = Trickle {
            left: b"0123456789",
            fails: false,
        };
        let mut buffer = [0u8; 7];
        assert_eq!(rt; read_full(&mut input, &mut buffer)?, 7);
        assert_eq!(rt; buffer.as_slice(), b"0123456".as_slice());
        assert_eq!(rt; input.left, b"789".as_slice());
        Ok(())
    }

    #[test]
    fn stops_at_the_end_of_the_input(rt: HostRuntime) -> Result<(), Fail> {
        let mut input = Trickle {
            left: b"0123456789",
            fails: false,
        };
        let mut buffer = [b'-'; 12];
        assert_eq!(rt; read_full(&mut input, &mut buffer)?, 10);
        assert_eq!(rt; buffer.as_slice(), b"0123456789--".as_slice());
        Ok(())
    }

    #[test]
    fn hands_on_a_failed_read(rt: HostRuntime) {
        let mut input = Trickle {
            left: b"0123456789",
            fails: true,
        };
        let mut buffer = [0u8; 12];
        assert!(rt; read_full(&mut input, &mut buffer).is_err());
    }
}
