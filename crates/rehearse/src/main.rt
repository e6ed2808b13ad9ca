// Reads a program with its counts, inputs, budget and turns from standard input, and prints both of its runs (document 01, "The program `rehearse`").
#![tactic(auto)]

ghost use Rattle.std.specs.Prelude.{◌≤◌, length, OnOk};
ghost use Rattle.std.specs.Io.KnownBytes.{Appends};
ghost use Rattle.rehearsal.specs.Both.{shown};

use cases::lending::Lending;
use std::io;
use std::io::Write;

// "lends 49,152 working and 1,536 record bytes", and a place for the length of each of up to 16 parties
fn print_runs<W: Write>(
    text: &[u8],
    records: &mut [u8],
    lengths: &mut [usize],
    work: &mut [u8],
    out: &mut [u8],
    writer: &mut W,
) -> io::Result<()>
    requires { (1536 ≤ length records.old) × (16 ≤ length lengths.old) × (49152 ≤ length work.old) × (65536 ≤ length out.old) }
    ensures { OnOk result (Appends (W.contents writer.old) (W.contents writer.new) (shown (record { records = 1536; lengths = 16; single = 49152; joint = 49152 }) text.now)) }
{
    let lending = Lending {
        records: 1536,
        lengths: 16,
        single: 49152,
        joint: 49152,
    };
    let end = rehearsal::both::rehearse(text, lending, records, lengths, work, out, 0);
    writer.write_all(&out[..end])
}

fn main(rt: HostRuntime) -> io::Result<()> {
    // One byte more than is taken, so that a longer input shows.
    let mut text = [0u8; 8193];
    let mut records = [0u8; 1536];
    let mut lengths = [0usize; 16];
    let mut work = [0u8; 49152];
    let mut out = streams::zeros::<65536>();
    let n = streams::read_full(&mut rt.stdin(), &mut text)?;
    print_runs(
        &text[..n],
        &mut records,
        &mut lengths,
        &mut work,
        &mut out,
        &mut rt.stdout(),
    )
}
