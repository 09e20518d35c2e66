// Orders that are absent from a list leave: their slots are free in the same step, and their numbers begin to rest. The list is
// looked at as far as its first n orders; a desk hands in how many it has. It is no slice of n orders, since n may pass its end.
#![tactic(auto)]

ghost use Rattle.std.specs.Prelude.{map, ◌≡◌};
ghost use Rattle.order_list.specs.Lists.{index_below, listed_at, numbers_of};
ghost use Rattle.leaving.specs.Leaving.{kept_among, ended_entry, ended_among, remains_of};

use condition::{SLOTS, Slot};
use places::Place;
use resting::{Ended, KEPT};

// What becomes of a place, and what it adds to the numbers that ended.
#[derive(Clone, Copy)]
struct Fate {
    place: Place,
    ended: Ended,
}

// A list that is looked at as far as its first n orders, and the order numbers of its first twenty.
#[derive(Clone, Copy)]
struct Looked<'a> {
    list: &'a [u8],
    n: u8,
    numbers: [u32; 20],
    ghost at_hand: { numbers ≡ numbers_of list.now },
}

impl Looked<'_> {
    // Which of the orders has this order number.
    fn listed(&self, number: u32) -> Option<u8>
        ensures { result ≡ index_below self.now.n (listed_at self.now.list.now self.now.n number) }
    {
        match order_list::found_at(&self.numbers, number) {
            Some(at) if at < self.n as usize => Some(at as u8),
            None if SLOTS < self.n as usize => order_list::listed_at(self.list, self.n, number),
            _ => None,
        }
    }

    // An order in the list keeps its slot and number and takes the new words. Any other leaves a free place, and its number has ended.
    fn fate_of(&self, step: u16, place: Place) -> Fate
        ensures { (result.place ≡ kept_among self.now.list.now self.now.n place)
            × (result.ended ≡ ended_entry self.now.list.now self.now.n step place) }
    {
        if let Some(at) = self.listed(place.order) {
            let order = order_list::order_at(self.list, at);
            return Fate {
                place: Place {
                    order: place.order,
                    slot: Slot {
                        number: place.slot.number,
                        body: condition::body_of(order.kind, order.first, order.second),
                    },
                },
                ended: Ended::none(),
            };
        }
        if place.order == 0 {
            return Fate {
                place: Place::free(),
                ended: Ended::none(),
            };
        }
        Fate {
            place: Place::free(),
            ended: Ended {
                number: place.slot.number,
                step,
            },
        }
    }
}

// The places of the orders that stay, and the numbers that have ended.
#[derive(Clone, Copy)]
pub struct Remains {
    pub places: [Place; 20],
    pub ended: [Ended; 160],
}

// Who stays and who ends: the places of the orders that stay, and the ended numbers after the step, the twenty of this step and then those
// that were there.
pub fn leave(list: &[u8], n: u8, step: u16, places: [Place; 20], ended: [Ended; 160]) -> Remains
    ensures { result ≡ remains_of list.now n step places ended }
{
    let numbers = order_list::numbers_of(list);
    let looked = Looked { list, n, numbers };
    let mut kept = places;
    let mut next = ended;
    next.copy_within(..KEPT - SLOTS, SLOTS);
    for (i, place) in places.iter().enumerate() {
        let fate = looked.fate_of(step, *place);
        kept[i] = fate.place;
        next[i] = fate.ended;
    }
    Remains {
        places: kept,
        ended: next,
    }
}

// The places of the orders that stay.
#[tactic(auto, unfolding(crate::specs::Leaving::remains_of))]
pub fn kept_places(list: &[u8], n: u8, places: [Place; 20]) -> [Place; 20]
    ensures { result ≡ map (kept_among list.now n) places }
{
    leave(list, n, 0, places, [Ended::none(); 160]).places
}

// The ended numbers after the step: the twenty of this step, then those that were there.
#[tactic(auto, unfolding(crate::specs::Leaving::remains_of))]
pub fn ended_numbers(
    list: &[u8],
    n: u8,
    step: u16,
    places: [Place; 20],
    ended: [Ended; 160],
) -> [Ended; 160]
    ensures { result ≡ ended_among list.now n step places ended }
{
    leave(list, n, step, places, ended).ended
}
