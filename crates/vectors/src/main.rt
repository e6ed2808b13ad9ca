// Runs a file of cases from standard input: each is its length (4), then a head that says what is lent (13), then what `rehearse` reads.
// For case I it prints a line `case I` and what `rehearse` prints under that lending. A case that is cut, has no whole head or is too long is bad input.
#![tactic(auto)]

ghost use Rattle.std.specs.Prelude.{◌≤◌, IfOk, OnOk};
ghost use Rattle.std.specs.Io.KnownBytes.{Appends};
ghost use Rattle.streams.specs.Counts.{IsPrefixLen};
ghost use Rattle.vectors.specs.Printed.{case_printed};
ghost use Rattle.vectors.specs.Spaces.{Spaces};

use cases::lending::Lending;
use std::io;
use std::io::{Read, Write};

// What is printed of a case, whole.
#[tactic(auto, using(crate::proofs::PrintedLaws::headless_bytes))]
fn print_case<W: Write>(
    case: &[u8],
    records: &mut [u8],
    lengths: &mut [usize],
    work: &mut [u8],
    out: &mut [u8],
    writer: &mut W,
) -> io::Result<()>
    requires { Spaces records.old lengths.old work.old out.old }
    ensures { OnOk result (Appends (W.contents writer.old) (W.contents writer.new) (case_printed case.now)) }
{
    if case.len() < Lending::SIZE {
        return writer.write_all(b"bad input\n");
    }
    let lending = cases::lending::lending_of(case);
    let end = rehearsal::both::rehearse(&case[13..], lending, records, lengths, work, out, 0);
    writer.write_all(&out[..end])
}

// Case number i, of as many bytes as `case` has.
fn read_case<R: Read, W: Write>(
    i: u64,
    case: &mut [u8],
    records: &mut [u8],
    lengths: &mut [usize],
    work: &mut [u8],
    out: &mut [u8],
    reader: &mut R,
    writer: &mut W,
) -> io::Result<()>
    requires { Spaces records.old lengths.old work.old out.old }
{
    writeln!(writer, "case {i}")?;
    if streams::read_full(reader, case)? < case.len() {
        return writer.write_all(b"bad input\n");
    }
    print_case(case, records, lengths, work, out, writer)
}

// n, or as much of it as there is space for.
fn at_most(n: usize, space: &[u8]) -> usize
    ensures { IsPrefixLen result space.now × (result ≤ n) }
{
    n.min(space.len())
}

// Reads past some of the bytes, and says how many: 0 where there are none left.
fn skip_some<R: Read>(bytes: usize, space: &mut [u8], reader: &mut R) -> io::Result<usize>
    ensures { IfOk result (λ n. n ≤ bytes) }
{
    let size = at_most(bytes, space);
    streams::read_full(reader, &mut space[..size])
}

fn skip<R: Read>(bytes: usize, space: &mut [u8], reader: &mut R) -> io::Result<()> {
    let mut left = bytes;
    // by what was read
    while left > 0 {
        let some = skip_some(left, space, reader)?;
        if some == 0 {
            return Ok(());
        }
        left -= some;
    }
    Ok(())
}

// The next case, if there is one. Of a case that is too long so much is read as shows it, and the rest is skipped.
fn next_case<R: Read, W: Write>(
    i: u64,
    space: &mut [u8],
    records: &mut [u8],
    lengths: &mut [usize],
    work: &mut [u8],
    out: &mut [u8],
    reader: &mut R,
    writer: &mut W,
) -> io::Result<bool>
    requires { Spaces records.old lengths.old work.old out.old }
{
    let mut head = [0u8; 4];
    if streams::read_full(reader, &mut head)? < 4 {
        return Ok(false);
    }
    let bytes = words::load4(&head, 0) as usize;
    let size = at_most(bytes, space);
    read_case(
        i,
        &mut space[..size],
        records,
        lengths,
        work,
        out,
        reader,
        writer,
    )?;
    skip(bytes - size, space, reader)?;
    Ok(true)
}

// A proved loop has to end, and nothing says that a file does. So the cases are counted, up to a number that no file comes to.
fn run_cases<R: Read, W: Write>(
    space: &mut [u8],
    records: &mut [u8],
    lengths: &mut [usize],
    work: &mut [u8],
    out: &mut [u8],
    reader: &mut R,
    writer: &mut W,
) -> io::Result<()>
    requires { Spaces records.old lengths.old work.old out.old }
{
    for i in 0..u64::MAX {
        if !next_case(i, space, records, lengths, work, out, reader, writer)? {
            break;
        }
    }
    Ok(())
}

fn main(rt: HostRuntime) -> io::Result<()> {
    // The head, and one byte more than `rehearse` takes, so that a longer case shows.
    let mut space = [0u8; 8206];
    let mut records = [0u8; 8192];
    let mut lengths = [0usize; 17];
    let mut work = [0u8; 266240];
    let mut out = streams::zeros::<65536>();
    run_cases(
        &mut space,
        &mut records,
        &mut lengths,
        &mut work,
        &mut out,
        &mut rt.stdin(),
        &mut rt.stdout(),
    )
}
