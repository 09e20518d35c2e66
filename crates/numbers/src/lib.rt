// Which number a new order is given: the first permitted one after the last one given. A number is permitted if no live order has
// it and it does not rest. How many steps a number rests is a figure that the desk hands in.
#![tactic(auto)]

ghost use Rattle.std.specs.Prelude.{◌≡◌};
ghost use Rattle.resting.specs.Rests.{rests_in};
ghost use Rattle.numbers.specs.Numbers.{has_number, is_permitted, number_after, next_number};

use places::Place;
use resting::AtRest;

// How many numbers there are to give: 1 to 255.
const NUMBERS: u16 = 255;

// Whether a live order has the number.
fn has_number(places: [Place; 20], number: u8) -> bool
    ensures { result ≡ has_number places number }
{
    places.iter().any(|place| place.slot.number == number)
}

fn is_permitted(places: [Place; 20], at_rest: &AtRest, number: u8) -> bool
    ensures { result ≡ is_permitted (rests_in at_rest.now) places number }
{
    !has_number(places, number) && !at_rest.is_resting(number)
}

// The number that follows the last one given after so many others. 255 is followed by 1; 0 is never given.
fn number_after(last: u8, others: u8) -> u8
    ensures { result ≡ number_after last others }
{
    ((last as u16 + others as u16) % NUMBERS + 1) as u8
}

// The first permitted number after the last one given. There always is one, since twenty live numbers and 160 kept ones are
// fewer than 255, so the loop ends at one.
pub fn next_number(places: [Place; 20], last: u8, at_rest: AtRest) -> u8
    ensures { result ≡ next_number (rests_in at_rest) places last }
{
    for others in 0..NUMBERS as u8 {
        let number = number_after(last, others);
        if is_permitted(places, &at_rest, number) {
            return number;
        }
    }
    unreachable!()
}
