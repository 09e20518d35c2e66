// A slot, and the number, type and two words that code it.
ghost use Rattle.std.specs.Prelude.{◌≡◌};
ghost use Rattle.wire.specs.Verdicts.{refusal_number};
ghost use Rattle.condition.specs.Slots.{empty_slot, is_occupied, body_of, slot_refusal, coded_of};

use kinds::{COUNTRIES, CURRENT, TRACTION, VOLTAGES, is_kind, second_allowed, second_held};
use wire::Refusal;

// How many slots a table has.
pub const SLOTS: usize = 20;

// What a slot holds. That it is empty is this enum's word, and not that its number is 0, and no Option's: a lent memory may have a number
// and nothing in the slot. The type of an area is a number: `listener_in` finds any byte in a lent memory.
#[derive(Clone, Copy)]
pub enum Body {
    Empty,
    Area {
        kind: u8,
        entry: u16,
        exit: u16,
    },
    Traction {
        change: u16,
        country: u16,
        voltage: u8,
    },
    Current {
        change: u16,
        limit: u16,
    },
}

#[derive(Clone, Copy)]
pub struct Slot {
    pub number: u8,
    pub body: Body,
}

impl Slot {
    pub fn empty() -> Self
        ensures { result ≡ empty_slot }
    {
        Slot {
            number: 0,
            body: Body::Empty,
        }
    }

    pub fn is_occupied(self) -> bool
        ensures { result ≡ is_occupied self }
    {
        !matches!(self.body, Body::Empty)
    }
}

// A slot as it is coded: the six bytes' number, type, first word and second word.
#[derive(Clone, Copy)]
pub struct Coded {
    pub number: u8,
    pub kind: u8,
    pub first: u16,
    pub second: u16,
}

// The body that a type and two words make. A type that is not 1 to 9 makes none.
#[tactic(auto, unfolding(crate::specs::Slots::body_of))]
pub fn body_of(kind: u8, first: u16, second: u16) -> Body
    ensures { result ≡ body_of kind first second }
{
    let held = second_held(kind, first, second);
    if kind == TRACTION {
        return Body::Traction {
            change: first,
            country: held / VOLTAGES % COUNTRIES,
            voltage: (held % VOLTAGES) as u8,
        };
    }
    if kind == CURRENT {
        return Body::Current {
            change: first,
            limit: held,
        };
    }
    if is_kind(kind) {
        return Body::Area {
            kind,
            entry: first,
            exit: second,
        };
    }
    Body::Empty
}

// The first of the rows 12, 13 and 6 that holds.
#[tactic(auto, unfolding(kit::specs::Ladder::ladder, crate::specs::Slots::slot_rows, kinds::specs::Words::second_allowed, kinds::specs::Words::is_considered))]
pub fn refusal_of(coded: Coded) -> Result<(), Refusal>
    ensures { refusal_number result ≡ slot_refusal coded }
{
    let Coded {
        number,
        kind,
        first,
        second,
    } = coded;
    if number == 0 {
        if kind != 0 || first != 0 || second != 0 {
            return Err(Refusal::EmptySlotFilled);
        }
        return Ok(());
    }
    if !is_kind(kind) {
        return Err(Refusal::UnknownSlotType);
    }
    if !second_allowed(kind, first, second) {
        return Err(Refusal::SecondWord);
    }
    Ok(())
}

// A slot, coded. Of a country and a voltage the ten and the four bits that have room are written: a slot that a desk or a reader
// holds has no others.
#[tactic(auto, unfolding(crate::specs::Slots::coded_of))]
pub fn coded_of(slot: Slot) -> Coded
    ensures { result ≡ coded_of slot }
{
    match slot.body {
        Body::Empty => Coded {
            number: 0,
            kind: 0,
            first: 0,
            second: 0,
        },
        Body::Area { kind, entry, exit } => Coded {
            number: slot.number,
            kind,
            first: entry,
            second: exit,
        },
        Body::Traction {
            change,
            country,
            voltage,
        } => Coded {
            number: slot.number,
            kind: TRACTION,
            first: change,
            second: country % COUNTRIES * VOLTAGES + voltage as u16 % VOLTAGES,
        },
        Body::Current { change, limit } => Coded {
            number: slot.number,
            kind: CURRENT,
            first: change,
            second: limit,
        },
    }
}
