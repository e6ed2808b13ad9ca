// What the programs read and lend: a slice filled from a reader, and places of zeros.
#![tactic(auto)]

ghost use Rattle.std.specs.Prelude.{◌≡◌, ◌<◌, length, take, replicate, IfOk, OnErr};
ghost use Rattle.std.specs.Io.KnownBytes.{Consumes, IsAtEnd};
ghost use Rattle.streams.specs.Counts.{IsPrefixLen, CutShort};

use std::io;
use std::io::Read;

// So many zeros.
pub fn zeros<const N: usize>() -> [u8; N]
    ensures len { N ≡ length result }
    ensures filled { result ≡ replicate N 0 }
{
    [0; N]
}

// Reads until the slice is full or the input ends: how many bytes came to its start.
pub fn read_full<R: Read>(reader: &mut R, buf: &mut [u8]) -> io::Result<usize>
    ensures in_bounds { IfOk result (λ n. IsPrefixLen n buf.new) }
    ensures bytes { IfOk result (λ n. Consumes (R.remaining reader.old) (R.remaining reader.new) (take n buf.new)) }
    ensures cut_short { OnErr result (CutShort (R.remaining reader.old) (R.remaining reader.new) buf.new) }
    ensures ended { IfOk result (λ n. n < length buf.new → IsAtEnd (R.remaining reader.new)) }
{
    let mut done = 0;
    // by what each read gives
    while done < buf.len() {
        let n = reader.read(&mut buf[done..])?;
        if n == 0 {
            break;
        }
        done += n;
    }
    Ok(done)
}

#[cfg(test)]
mod tests {
    use super::*;

    // One byte a read, as many as are left, and then an error or the end.
    #[derive(Drop)]
    struct Slow {
        left: u8,
        fails: bool,
    }

    impl Read for Slow {
        fn read(&mut self, buf: &mut [u8]) -> io::Result<usize> {
            if buf.is_empty() {
                return Ok(0);
            }
            if self.left == 0 {
                return if self.fails {
                    Err(io::Error::from(io::ErrorKind::TimedOut))
                } else {
                    Ok(0)
                };
            }
            buf[0] = self.left;
            self.left -= 1;
            Ok(1)
        }
    }

    #[test]
    fn reads_until_full_or_ended(rt: HostRuntime) {
        for (left, want) in [(0u8, 0usize), (3, 3), (4, 4), (9, 4)] {
            let mut buf = [0u8; 4];
            let got = read_full(&mut Slow { left, fails: false }, &mut buf);
            assert!(rt; matches!(&got, Ok(n) if *n == want), "{left} bytes left");
            for (i, b) in buf.iter().enumerate() {
                let there = if i < want { left - i as u8 } else { 0 };
                assert_eq!(rt; *b, there, "at {i}");
            }
        }
    }

    #[test]
    fn tells_of_a_failed_read(rt: HostRuntime) {
        let mut buf = [0u8; 4];
        let got = read_full(
            &mut Slow {
                left: 2,
                fails: true,
            },
            &mut buf,
        );
        assert!(rt; matches!(&got, Err(e) if e.kind() == io::ErrorKind::TimedOut));
    }
}
