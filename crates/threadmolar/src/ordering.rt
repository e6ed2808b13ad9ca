// Which of two records goes on beyond the other, and by what part of it.
ghost use Rattle.std.specs.Prelude.{◌≡◌};
ghost use Rattle.order.specs.Order.{order_of};
ghost use Rattle.threadmolar.specs.Orders.{order_number, Continues};

use crate::answers::{EQUAL, FIRST_LONGER, NEITHER, SECOND_LONGER};
use order::Order;

// Its number in the C interface.
fn number_of(order: Order) -> u32
    ensures { result ≡ order_number order }
{
    match order {
        Order::FirstLonger => FIRST_LONGER,
        Order::SecondLonger => SECOND_LONGER,
        Order::Equal => EQUAL,
        Order::Neither => NEITHER,
    }
}

#[unsafe(no_mangle)]
pub extern "C" fn threadmolar_order(first: &[u8], second: &[u8]) -> u32
    ensures { result ≡ order_number (order_of first.now second.now) }
{
    number_of(order::order_of(first, second))
}

// The part is the end of the longer record: from where the shorter one ends.
#[unsafe(no_mangle)]
pub extern "C" fn threadmolar_continuation(
    first: &[u8],
    second: &[u8],
    start: &mut usize,
    length: &mut usize,
) -> u32
    ensures { Continues first.now second.now result start.new length.new }
{
    let m = first.len();
    let n = second.len();
    let order = order::order_of(first, second);
    let number = number_of(order);
    match order {
        Order::FirstLonger => {
            *start = n;
            *length = m - n;
            number
        }
        Order::SecondLonger => {
            *start = m;
            *length = n - m;
            number
        }
        Order::Equal => {
            *start = n;
            *length = 0;
            number
        }
        Order::Neither => {
            *start = n;
            *length = 0;
            number
        }
    }
}
