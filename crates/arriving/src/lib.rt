// New orders arrive, in list order: each takes the lowest free slot and the first permitted number after the last one given. The list
// is looked at as far as its first n orders; a desk hands in how many it has. It is no slice of n orders, since n may pass its end. Where
// no slot is free the places stay as they are: of a desk that was made and a list that it accepts, every new order finds one
// (desk/proofs/Seating.antt).
#![tactic(auto)]

ghost use Rattle.std.specs.Prelude.{◌≡◌, false};
ghost use Rattle.places.specs.Places.{is_live};
ghost use Rattle.resting.specs.Rests.{rests_in};
ghost use Rattle.arriving.specs.Arriving.{seated, seated_all};

use condition::Slot;
use order_list::Order;
use places::Place;
use resting::AtRest;

// What changes while orders arrive.
#[derive(Clone, Copy)]
pub struct Seats {
    pub places: [Place; 20],
    pub last: u8,
}

// A new order of the list placed. The number that it is given is the last one given from then on.
fn seat(seats: Seats, at_rest: AtRest, order: Order) -> Seats
    requires { is_live seats.places order.number ≡ false }
    ensures { result ≡ seated (rests_in at_rest) order seats }
{
    let mut places = seats.places;
    let last = numbers::next_number(places, seats.last, at_rest);
    if let Some(at) = places::place_of(places, 0) {
        places[at] = Place {
            order: order.number,
            slot: Slot {
                number: last,
                body: condition::body_of(order.kind, order.first, order.second),
            },
        };
    }
    Seats { places, last }
}

// All of the first n orders of the list placed that are new. The orders of the places are at hand, so that one which is live is passed
// over at once.
pub fn seat_all(first: Seats, at_rest: AtRest, list: &[u8], n: u8) -> Seats
    ensures { result ≡ seated_all (rests_in at_rest) list.now first n }
{
    let mut seats = first;
    let mut live = places::orders_of(first.places);
    for j in 0..n {
        let order = order_list::order_at(list, j);
        if order_list::found_at(&live, order.number).is_none() {
            seats = seat(seats, at_rest, order);
            live = places::orders_of(seats.places);
        }
    }
    seats
}
