// When the list of orders that a desk is given is refused: rows 1 to 8 of document 01. A list is any bytes of any length; a live
// order is one that has a place on the desk.
#![tactic(auto)]

ghost use Rattle.std.specs.Prelude.{◌≡◌, ◌<◌, ◌≤◌, length};
ghost use Rattle.kit.specs.Each.{each};
ghost use Rattle.kit.specs.Ladder.{ladder};
ghost use Rattle.wire.specs.Verdicts.{refusal_number};
ghost use Rattle.order_list.specs.Lists.{order_count, is_listed, numbers_of};
ghost use Rattle.orders.specs.Orders.{types_of, OfPlaces, is_retyped, order_rows, list_refusal};

use order_list::{LENGTH, Order};
use places::Place;
use std::array;
use wire::Refusal;

// The most bytes that a list may have.
const LONGEST: usize = 200;

// The types of what stands in the twenty places, in their order; 0 where nothing does, as `coded_of` has it. By `from_fn`, as the orders of
// the places.
fn types_of(places: [Place; 20]) -> [u8; 20]
    ensures { result ≡ types_of places }
{
    array::from_fn(|i| condition::coded_of(places[i].slot).kind)
}

// A list, the order numbers of its first twenty orders, and the orders and types of the twenty places: two arrays and none of pairs, since
// `order_list::found_at` looks through numbers that stand side by side.
#[derive(Clone, Copy)]
struct Judged<'a> {
    list: &'a [u8],
    numbers: [u32; 20],
    live: [u32; 20],
    types: [u8; 20],
    ghost at_hand: { numbers ≡ numbers_of list.now },
}

impl Judged<'_> {
    // Whether an order is live with another type.
    fn is_retyped(&self, order: Order) -> bool
        ensures { OfPlaces self.now.live self.now.types (λ places. result ≡ is_retyped places order) }
    {
        match order_list::found_at(&self.live, order.number) {
            Some(at) => self.types[at] != order.kind,
            None => false,
        }
    }

    // Whether an order number stands in the list before order j.
    fn is_earlier(&self, j: u8, number: u32) -> bool
        requires { j < 20 }
        ensures { result ≡ is_listed self.now.list.now j number }
    {
        match order_list::found_at(&self.numbers, number) {
            Some(at) => at < j as usize,
            None => false,
        }
    }

    // The refusal of order j.
    fn refusal(&self, j: u8) -> Result<(), Refusal>
        requires { j < 20 }
        ensures { OfPlaces self.now.live self.now.types (λ places. refusal_number result ≡ ladder 0 (order_rows places self.now.list.now j)) }
    {
        let order = order_list::order_at(self.list, j);
        if order.number == 0 {
            return Err(Refusal::OrderZero);
        }
        if !kinds::is_kind(order.kind) {
            return Err(Refusal::UnknownType);
        }
        if order.spare != 0 {
            return Err(Refusal::SpareByte);
        }
        if !kinds::second_allowed(order.kind, order.first, order.second) {
            return Err(Refusal::SecondWord);
        }
        if self.is_earlier(j, order.number) {
            return Err(Refusal::OrderTwice);
        }
        if self.is_retyped(order) {
            return Err(Refusal::TypeChanged);
        }
        Ok(())
    }
}

// The refusal of the first bad order of a list.
fn orders_refusal(places: [Place; 20], list: &[u8]) -> Result<(), Refusal>
    requires { length list.now ≤ 200 }
    ensures { refusal_number result ≡ ladder 0 (each (order_rows places list.now) 0 (order_count list.now)) }
{
    let judged = Judged {
        list,
        numbers: order_list::numbers_of(list),
        live: places::orders_of(places),
        types: types_of(places),
    };
    for j in 0..(list.len() / LENGTH) as u8 {
        judged.refusal(j)?;
    }
    Ok(())
}

// The refusal of a list.
#[tactic(auto, unfolding(kit::specs::Ladder::ladder, crate::specs::Orders::list_rows))]
pub fn refusal_of(places: [Place; 20], list: &[u8]) -> Result<(), Refusal>
    ensures { refusal_number result ≡ list_refusal places list.now }
{
    if list.len() % LENGTH != 0 {
        return Err(Refusal::NotWholeOrders);
    }
    if LONGEST < list.len() {
        return Err(Refusal::ListTooLong);
    }
    orders_refusal(places, list)
}
