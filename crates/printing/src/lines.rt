// The lines of what a call leaves: its answer, and each party's record. The two runs come out in different ways, and a trait over
// both would be longer than an arm for each.
ghost use Rattle.std.specs.Prelude.{◌+◌, ◌*◌, ◌≤◌, ◌++◌, length};
ghost use Rattle.text.specs.Text.{Puts};
ghost use Rattle.printing.specs.Lines.{one_number, two_numbers, party_line, record_lines, single_lines, joint_lines};
ghost use Rattle.printing.specs.Shown.{Fit, most_of_party, most_of_records, most_of_one, unanswered, single_fits, single_shown, joint_fits, joint_shown};

// What the line of a single run tells, in document 01's numbers: `SingleAnswer` in code. A refusal is told by any number, since a line can hold any.
#[derive(Clone, Copy)]
pub enum SingleLine {
    // the refusal's number, and its place
    Refused(u8, usize),
    // the refusal's number, the node, and the steps taken before, which the line leaves out
    Stopped(u8, u16, u32),
    // the steps
    Ended(u32),
    Budget(u32),
}

// What the line of a joint run tells, in the same way: `JointAnswer` in code.
#[derive(Clone, Copy)]
pub enum JointLine {
    // the refusal's number, and its place
    Refused(u8, usize),
    // the turns at which a site stepped or stopped
    Complete(u32),
    Open(u32),
}

// A line of a word and a number.
fn put_one(word: &[u8], x: u64, out: &mut [u8], at: usize) -> usize
    requires { at + (length word.now + 21) ≤ length out.old }
    ensures { Puts (one_number word.now x) at result out.old out.new }
{
    let end = text::plain::put(out, at, word);
    let end_x = text::decimals::put_decimal(out, end, x);
    text::plain::put(out, end_x, b"\n")
}

// A line of a word and two numbers.
fn put_two(word: &[u8], x: u64, y: u64, out: &mut [u8], at: usize) -> usize
    requires { at + (length word.now + 42) ≤ length out.old }
    ensures { Puts (two_numbers word.now x y) at result out.old out.new }
{
    let end = text::plain::put(out, at, word);
    let end_x = text::decimals::put_decimal(out, end, x);
    put_one(b" ", y, out, end_x)
}

// A party's line: its number and its record.
fn put_party(party: usize, bytes: &[u8], out: &mut [u8], at: usize) -> usize
    requires { at + most_of_party bytes.now ≤ length out.old }
    ensures { Puts (party_line party bytes.now) at result out.old out.new }
{
    let end = text::decimals::put_decimal(out, at, party as u64);
    let end_bytes = text::hex::put_spaced(out, end, bytes);
    text::plain::put(out, end_bytes, b"\n")
}

// The lines of all n parties.
fn put_records(n: u8, records: &[u8], lengths: &[usize], out: &mut [u8], at: usize) -> usize
    requires { Fit n records.now lengths.now × (at + most_of_records ≤ length out.old) }
    ensures { Puts (record_lines n (unanswered records.now lengths.now)) at result out.old out.new }
{
    let parties = n as usize;
    let mut to = at;
    for party in 0..parties {
        let start = party * (records.len() / parties);
        let end = start + lengths[party];
        to = put_party(party, &records[start..end], out, to);
    }
    to
}

// What a run with a count leaves: a line of a word and the count, and the lines of all n parties.
fn put_counted(
    word: &[u8],
    count: u64,
    n: u8,
    records: &[u8],
    lengths: &[usize],
    out: &mut [u8],
    at: usize,
) -> usize
    requires { Fit n records.now lengths.now × (length word.now ≤ 15) × (at + most_of_one ≤ length out.old) }
    ensures { Puts (one_number word.now count ++ record_lines n (unanswered records.now lengths.now)) at result out.old out.new }
{
    let end = put_one(word, count, out, at);
    put_records(n, records, lengths, out, end)
}

// What the single run leaves.
pub fn put_single(
    line: SingleLine,
    n: u8,
    records: &[u8],
    lengths: &[usize],
    out: &mut [u8],
    at: usize,
) -> usize
    requires { single_fits line n records.now lengths.now × (at + most_of_one ≤ length out.old) }
    ensures { Puts (single_lines n (single_shown line records.now lengths.now)) at result out.old out.new }
{
    match line {
        SingleLine::Refused(number, place) => {
            put_two(b"single refused ", number as u64, place as u64, out, at)
        }
        SingleLine::Stopped(number, node, _) => {
            let end = put_two(b"single stopped ", number as u64, node as u64, out, at);
            put_records(n, records, lengths, out, end)
        }
        SingleLine::Ended(steps) => {
            put_counted(b"single ended ", steps as u64, n, records, lengths, out, at)
        }
        SingleLine::Budget(steps) => {
            put_counted(
                b"single budget ",
                steps as u64,
                n,
                records,
                lengths,
                out,
                at,
            )
        }
    }
}

// What the joint run leaves.
pub fn put_joint(
    line: JointLine,
    n: u8,
    records: &[u8],
    lengths: &[usize],
    out: &mut [u8],
    at: usize,
) -> usize
    requires { joint_fits line n records.now lengths.now × (at + most_of_one ≤ length out.old) }
    ensures { Puts (joint_lines n (joint_shown line records.now lengths.now)) at result out.old out.new }
{
    match line {
        JointLine::Refused(number, place) => {
            put_two(b"joint refused ", number as u64, place as u64, out, at)
        }
        JointLine::Complete(turns) => {
            put_counted(
                b"joint complete ",
                turns as u64,
                n,
                records,
                lengths,
                out,
                at,
            )
        }
        JointLine::Open(turns) => {
            put_counted(b"joint open ", turns as u64, n, records, lengths, out, at)
        }
    }
}
