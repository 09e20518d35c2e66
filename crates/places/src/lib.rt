// The twenty places of a desk: which order has each, and its slot in the table.
#![tactic(auto)]

ghost use Rattle.std.specs.Prelude.{◌≡◌};
ghost use Rattle.condition.specs.Slots.{slot_count};
ghost use Rattle.order_list.specs.Lists.{index_below};
ghost use Rattle.places.specs.Places.{free_place, orders_of, place_of};

use condition::Slot;
use std::array;

// A place of the desk: the order that has it, and its slot in the table. Order 0: the place is free. It is no Option, since `free_place` and
// `is_free`, of which the theorems on the desk speak, say so of the number itself.
#[derive(Clone, Copy)]
pub struct Place {
    pub order: u32,
    pub slot: Slot,
}

impl Place {
    pub fn free() -> Self
        ensures { result ≡ free_place }
    {
        Place {
            order: 0,
            slot: Slot::empty(),
        }
    }
}

// The orders that have the twenty places, in their order; 0 of a free one. By `from_fn`: with the array's `map` a desk took half as long
// again for a list.
pub fn orders_of(places: [Place; 20]) -> [u32; 20]
    ensures { result ≡ orders_of places }
{
    array::from_fn(|i| places[i].order)
}

// The lowest place that an order has, if it is live. Of order 0: the lowest free place.
pub fn place_of(places: [Place; 20], order: u32) -> Option<usize>
    ensures { result ≡ index_below slot_count (place_of places order) }
{
    order_list::found_at(&orders_of(places), order)
}
