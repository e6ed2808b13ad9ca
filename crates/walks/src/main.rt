// Reads cases of two records from standard input and prints the lines of each.
#![tactic(auto)]

ghost use Rattle.std.specs.Prelude.{◌≡◌, ◌≤◌, length, IfOk, OnOk, ◌++◌};
ghost use Rattle.std.specs.Io.KnownBytes.{Appends};
ghost use Rattle.listing.specs.Lines.{case_line, walk_line, order_line};
ghost use Rattle.walks.specs.Room.{max_record, room_out, Fits};

use std::io;
use std::io::{Read, Write};

// Reads a record's length and its bytes, which come to the start of the slice: how many there are, or `None` where the input is cut before their end.
fn read_record<R: Read>(bytes: &mut [u8], reader: &mut R) -> io::Result<Option<usize>>
    requires { max_record ≤ length bytes.old }
    ensures { IfOk result Fits }
{
    let mut head = [0u8; 2];
    if streams::read_full(reader, &mut head)? < 2 {
        return Ok(None);
    }
    let n = words::load2(&head, 0) as usize;
    if streams::read_full(reader, &mut bytes[..n])? < n {
        return Ok(None);
    }
    Ok(Some(n))
}

// The lines of a case, written as they are put.
fn show<'a, W: Write>(
    number: u64,
    a: &'a [u8],
    b: &'a [u8],
    out: &mut [u8],
    writer: &mut W,
) -> io::Result<()>
    requires { (length a.now ≤ max_record) × (length b.now ≤ max_record) × (room_out ≤ length out.old) }
    ensures { OnOk result (Appends (W.contents writer.old) (W.contents writer.new) (case_line number ++ (walk_line a.now ++ (walk_line b.now ++ order_line a.now b.now)))) }
{
    let end_case = listing::lines::put_case(number, out, 0);
    let end_a = listing::lines::put_walk(a, out, end_case);
    writer.write_all(&out[..end_a])?;
    let end_b = listing::lines::put_walk(b, out, 0);
    writer.write_all(&out[..end_b])?;
    let end = listing::lines::put_order(a, b, out, 0);
    writer.write_all(&out[..end])
}

// One case. Answers whether to go on: not where the input ends.
fn do_case<R: Read, W: Write>(
    number: u64,
    a: &mut [u8],
    b: &mut [u8],
    out: &mut [u8],
    reader: &mut R,
    writer: &mut W,
) -> io::Result<bool>
    requires { (max_record ≤ length a.old) × (max_record ≤ length b.old) × (room_out ≤ length out.old) }
{
    let Some(m) = read_record(a, reader)? else {
        return Ok(false);
    };
    let Some(n) = read_record(b, reader)? else {
        return Ok(false);
    };
    show(number, &a[..m], &b[..n], out, writer)?;
    Ok(true)
}

// A proved loop has to end, and nothing says that the input does. So the cases are counted, up to a number that no run comes to.
fn main(rt: HostRuntime) -> io::Result<()> {
    let mut a = streams::zeros::<65536>();
    let mut b = streams::zeros::<65536>();
    // Enough for a case's number and the walk of a record.
    let mut out = streams::zeros::<1048576>();
    let mut reader = rt.stdin();
    let mut writer = rt.stdout();
    for number in 0..u64::MAX {
        if !do_case(number, &mut a, &mut b, &mut out, &mut reader, &mut writer)? {
            break;
        }
    }
    Ok(())
}
