// The lines of a case of two records, each put at a place of a lent slice. Each call hands back the place after what it wrote.
ghost use Rattle.std.specs.Prelude.{◌+◌, ◌*◌, ◌≤◌, length};
ghost use Rattle.text.specs.Text.{Puts};
ghost use Rattle.listing.specs.Lines.{case_line, marked, walk_line, order_word, order_line};
ghost use Rattle.listing.specs.Most.{most_of_case, most_of_walk, most_of_order};

use order::Order;
use refusals::Refusal;
use walk::Step;

// The line of a case's number.
pub fn put_case(number: u64, out: &mut [u8], at: usize) -> usize
    requires { at + most_of_case ≤ length out.old }
    ensures { Puts (case_line number) at result out.old out.new }
{
    let end_word = text::plain::put(out, at, b"case ");
    let end = text::decimals::put_decimal(out, end_word, number);
    text::plain::put(out, end, b"\n")
}

// A space and two numbers with a mark between them.
fn put_marked(x: u64, mark: &[u8], y: u64, out: &mut [u8], at: usize) -> usize
    requires { at + (length mark.now + 41) ≤ length out.old }
    ensures { Puts (marked mark.now x y) at result out.old out.new }
{
    let before_x = text::plain::put(out, at, b" ");
    let end_x = text::decimals::put_decimal(out, before_x, x);
    let before_y = text::plain::put(out, end_x, mark);
    text::decimals::put_decimal(out, before_y, y)
}

// The line of a record's walk, event by event.
pub fn put_walk(bytes: &[u8], out: &mut [u8], at: usize) -> usize
    requires { at + most_of_walk bytes.now ≤ length out.old }
    ensures { Puts (walk_line bytes.now) at result out.old out.new }
{
    let mut to = text::plain::put(out, at, b"walk");
    let mut start: usize = 0;
    // by events, of several lengths
    loop {
        match reader::event_at(bytes, start) {
            Step::Event(_, next) => {
                to = put_marked(bytes[start] as u64, b"@", start as u64, out, to);
                start = next.at;
            }
            Step::End => return text::plain::put(out, to, b" end\n"),
            Step::Bad(place) => {
                let end = put_marked(Refusal::NotAnEvent as u64, b" ", place as u64, out, to);
                return text::plain::put(out, end, b"\n");
            }
        }
    }
}

fn put_order_word(order: Order, out: &mut [u8], at: usize) -> usize
    requires { at + 13 ≤ length out.old }
    ensures { Puts (order_word order) at result out.old out.new }
{
    match order {
        Order::FirstLonger => text::plain::put(out, at, b"first longer"),
        Order::SecondLonger => text::plain::put(out, at, b"second longer"),
        Order::Equal => text::plain::put(out, at, b"equal"),
        Order::Neither => text::plain::put(out, at, b"neither"),
    }
}

// The line of which of two records goes on beyond the other, and by what.
pub fn put_order<'a>(a: &'a [u8], b: &'a [u8], out: &mut [u8], at: usize) -> usize
    requires { at + most_of_order a.now b.now ≤ length out.old }
    ensures { Puts (order_line a.now b.now) at result out.old out.new }
{
    let end_word = put_order_word(order::order_of(a, b), out, at);
    let end = text::hex::put_spaced(out, end_word, order::continuation(a, b));
    text::plain::put(out, end, b"\n")
}
