// Two records of one site: which continues the other, and by what.
#![tactic(auto)]

ghost use Rattle.std.specs.Prelude.{◌≡◌};
ghost use Rattle.order.specs.Order.{order_of, Continues};

use std::cmp::Ordering;

#[derive(Clone, Copy)]
pub enum Order {
    FirstLonger,
    SecondLonger,
    Equal,
    Neither,
}

// Which of two records goes on beyond the other, where their first bytes do not tell. A function of its own, so that a call which they answer does not pay
// for the comparison.
#[inline(never)]
fn order_alike(a: &[u8], b: &[u8]) -> Order
    ensures { result ≡ order_of a.now b.now }
{
    let common = a.len().min(b.len());
    if a[..common] != b[..common] {
        return Order::Neither;
    }
    match a.len().cmp(&b.len()) {
        Ordering::Greater => Order::FirstLonger,
        Ordering::Less => Order::SecondLonger,
        Ordering::Equal => Order::Equal,
    }
}

pub fn order_of(a: &[u8], b: &[u8]) -> Order
    ensures { result ≡ order_of a.now b.now }
{
    match (a.first(), b.first()) {
        (None, None) => Order::Equal,
        (Some(_), None) => Order::FirstLonger,
        (None, Some(_)) => Order::SecondLonger,
        (Some(x), Some(y)) if x != y => Order::Neither,
        _ => order_alike(a, b),
    }
}

// What the longer has beyond the shorter, as that part of the lent bytes.
pub fn continuation<'a>(a: &'a [u8], b: &'a [u8]) -> &'a [u8]
    ensures { Continues a.entry b.entry result }
{
    let m = a.len();
    let n = b.len();
    match order_of(a, b) {
        Order::FirstLonger => &a[n..],
        Order::SecondLonger => &b[m..],
        Order::Equal => &b[n..],
        Order::Neither => &b[n..],
    }
}
