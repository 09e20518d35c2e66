// The list of orders that a desk is given: any bytes of any length, ten for each order.
#![tactic(auto)]

ghost use Rattle.std.specs.Prelude.{◌≡◌};
ghost use Rattle.order_list.specs.Lists.{order_at, index_below, listed_at, numbers_of, found_at};

use std::array;

// How many bytes an order has.
pub const LENGTH: usize = 10;

#[derive(Clone, Copy)]
pub struct Order {
    pub number: u32,
    pub kind: u8,
    pub spare: u8,
    pub first: u16,
    pub second: u16,
}

// Order j of a list, counted from 0.
#[tactic(auto, unfolding(crate::specs::Lists::order_at))]
pub fn order_at(list: &[u8], j: u8) -> Order
    ensures { result ≡ order_at list.now j }
{
    let at = LENGTH * (j as usize);
    Order {
        number: wire::long_at(list, at),
        kind: wire::byte_at(list, at + 4),
        spare: wire::byte_at(list, at + 5),
        first: wire::word_at(list, at + 6),
        second: wire::word_at(list, at + 8),
    }
}

// Which of the first n orders of a list has this order number, the first that has it. A list and n, and no slice of n orders: n may pass
// the list's end, and what is promised of the orders past it, which are of zeros, a slice could not say.
pub fn listed_at(list: &[u8], n: u8, number: u32) -> Option<u8>
    ensures { result ≡ index_below n (listed_at list.now n number) }
{
    (0..n).find(|j| order_at(list, *j).number == number)
}

// The order numbers of the first twenty orders of a list; 0 past its end. By `from_fn`, since a list is bytes and no array that a `map`
// could go over.
pub fn numbers_of(list: &[u8]) -> [u32; 20]
    ensures { result ≡ numbers_of list.now }
{
    array::from_fn(|j| order_at(list, j as u8).number)
}

// Which of twenty order numbers this is, the lowest. All twenty are looked at, one bit for each that is the number: a machine compares
// several at once, and there is no branch to guess wrong.
pub fn found_at(numbers: &[u32; 20], number: u32) -> Option<usize>
    ensures { result ≡ index_below 20 (found_at numbers.now number) }
{
    let mut bits: u32 = 0;
    for (i, found) in numbers.iter().enumerate() {
        bits |= u32::from(*found == number) << i;
    }
    if bits == 0 {
        None
    } else {
        Some(bits.trailing_zeros() as usize)
    }
}
