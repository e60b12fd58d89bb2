// A program's input: a reader's bytes to the end of the input, or as many as there is room for.
#![tactic(auto)]

ghost use Rattle.std.specs.Prelude.{◌≡◌, ◌<◌, ◌≤◌, IfOk, length, take};
ghost use Rattle.std.specs.Io.{ReadsAtMost};
ghost use Rattle.std.specs.Io.KnownBytes.{Consumes, IsAtEnd};

use std::io;
use std::io::Read;

// Reads on until `buf` is full or the input ends, since a read may be short, and says how many bytes then stand at the front of `buf`:
// they are what the reader gave, and where they are fewer than `buf` has room for, it has no more. A failed read ends it with that error.
pub fn read_full<R: Read>(input: &mut R, buf: &mut [u8]) -> io::Result<usize>
    ensures bound { ReadsAtMost result buf.new }
    ensures bytes { IfOk result (λ n. Consumes (R.remaining input.old) (R.remaining input.new) (take n buf.new)) }
    ensures end { IfOk result (λ n. n < length buf.old → IsAtEnd (R.remaining input.new)) }
{
    let mut done = 0;
    while done < buf.len() {
        let count = input.read(&mut buf[done..])?;
        if count == 0 {
            break;
        }
        done += count;
    }
    Ok(done)
}

#[cfg(test)]
mod tests {
    use super::*;
    use std::io::ErrorKind;

    // Gives `left` and the numbers below it, a byte a read, and after 1 the end, or an error.
    #[derive(Drop)]
    struct Countdown {
        left: u8,
        fails: bool,
    }

    impl Read for Countdown {
        fn read(&mut self, buf: &mut [u8]) -> io::Result<usize> {
            if buf.is_empty() {
                return Ok(0);
            }
            if self.left == 0 {
                if self.fails {
                    return Err(io::Error::from(ErrorKind::BrokenPipe));
                }
                return Ok(0);
            }
            buf[0] = self.left;
            self.left -= 1;
            Ok(1)
        }
    }

    #[test]
    fn reads_on_to_the_end(rt: HostRuntime) -> io::Result<()> {
        let mut input = Countdown {
            left: 5,
            fails: false,
        };
        let mut buf = [7; 8];
        let count = read_full(&mut input, &mut buf)?;
        assert_eq!(rt; count, 5);
        assert_eq!(rt; buf, [5, 4, 3, 2, 1, 7, 7, 7]);
        Ok(())
    }

    // The error comes behind what has room, and is not met.
    #[test]
    fn reads_on_until_full(rt: HostRuntime) -> io::Result<()> {
        let mut input = Countdown {
            left: 5,
            fails: true,
        };
        let mut buf = [7; 3];
        let count = read_full(&mut input, &mut buf)?;
        assert_eq!(rt; count, 3);
        assert_eq!(rt; buf, [5, 4, 3]);
        assert_eq!(rt; input.left, 2);
        Ok(())
    }

    #[test]
    fn hands_an_error_on(rt: HostRuntime) {
        let mut input = Countdown {
            left: 5,
            fails: true,
        };
        let mut buf = [7; 8];
        match read_full(&mut input, &mut buf) {
            Ok(count) => panic!(rt; "{count} bytes in place of the error"),
            Err(e) => assert_eq!(rt; e.kind(), ErrorKind::BrokenPipe),
        }
    }
}
