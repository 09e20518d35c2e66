// The types of conditions, their two words, and which second words a type allows.
#![tactic(auto)]

ghost use Rattle.std.specs.Prelude.{◌≡◌};
ghost use Rattle.kinds.specs.Words.{is_type, is_traction_word, is_current_word, is_considered, is_unfitted, second_allowed, second_held};

mod second_words;

use wire::NO_VALUE;

// The types whose second word is no distance; the highest type.
pub const TRACTION: u8 = 4;

pub const CURRENT: u8 = 5;

const LAST_KIND: u8 = 9;

// Of a change of traction system, the second word has the voltage in its low four bits and the country in the ten above. The two
// bits above those are zero.
pub const VOLTAGES: u16 = 16;

pub const COUNTRIES: u16 = 1024;

const VOLTAGE_MOST: u16 = 5;

const ABOVE_COUNTRY: u16 = 0x4000;

const LIMIT_MOST: u16 = 1000;

const NO_RESTRICTION: u16 = 1023;

// Whether a number is a type of condition, 1 to 9. A type is a number and no enum, here and in slots and orders: any byte may stand in a
// telegram, a list or a lent memory, and each function of this crate answers for every one.
pub fn is_kind(kind: u8) -> bool
    ensures { result ≡ is_type kind }
{
    (1..=LAST_KIND).contains(&kind)
}

// Whether the second word is looked at: not for a change of traction system or of current whose change distance is missing.
#[tactic(auto, unfolding(crate::specs::Words::is_considered))]
fn considered(kind: u8, first: u16) -> bool
    ensures { result ≡ is_considered kind first }
{
    first != NO_VALUE || (kind != TRACTION && kind != CURRENT)
}

// Whether the country is not looked at: a change of traction system with voltage 0, where the line is fitted with none.
#[tactic(auto, unfolding(crate::specs::Words::is_unfitted))]
fn unfitted(kind: u8, second: u16) -> bool
    ensures { result ≡ is_unfitted kind second }
{
    kind == TRACTION && second % VOLTAGES == 0
}

fn traction_word(second: u16) -> bool
    ensures { result ≡ is_traction_word second }
{
    second < ABOVE_COUNTRY && second % VOLTAGES <= VOLTAGE_MOST
}

fn current_word(second: u16) -> bool
    ensures { result ≡ is_current_word second }
{
    second <= LIMIT_MOST || second == NO_RESTRICTION
}

// Whether the second word is allowed for the type (row 6). Between entry and exit no order is asked.
#[tactic(auto, unfolding(crate::specs::Words::second_allowed))]
pub fn second_allowed(kind: u8, first: u16, second: u16) -> bool
    ensures { result ≡ second_allowed kind first second }
{
    if !considered(kind, first) {
        return true;
    }
    match kind {
        TRACTION => traction_word(second),
        CURRENT => current_word(second),
        _ => true,
    }
}

// The second word as a desk and a reader hold it: zero without a change distance, and with voltage 0 without its country.
#[tactic(auto, unfolding(crate::specs::Words::second_held))]
pub fn second_held(kind: u8, first: u16, second: u16) -> u16
    ensures { result ≡ second_held kind first second }
{
    if !considered(kind, first) {
        0
    } else if unfitted(kind, second) {
        second - second / VOLTAGES % COUNTRIES * VOLTAGES
    } else {
        second
    }
}
