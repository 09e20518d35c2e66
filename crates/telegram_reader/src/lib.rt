// Reading a telegram of any bytes and any length: its refusal (10, 11, then the first bad slot with 12, 13, 6, 14), or what it means.
#![tactic(auto)]

ghost use Rattle.std.specs.Prelude.{◌≡◌, ◌<◌};
ghost use Rattle.kit.specs.Ladder.{ladder};
ghost use Rattle.wire.specs.Verdicts.{refusal_number};
ghost use Rattle.telegram_reader.specs.Places.{place_slot};
ghost use Rattle.telegram.specs.Telegrams.{coded_at, slot_at, taken_before, place_rows, read_refusal, telegram_of, read_of, reading_in};

use condition::{Coded, Slot};
use telegram::{FIRST_PACKET, LENGTH, Telegram};
use wire::Refusal;

// One of the four places of a telegram, 0 to 3.
#[derive(Clone, Copy)]
struct Place<'a> {
    telegram: &'a [u8; 26],
    k: usize,
    ghost below: { k < 4 },
}

impl Place<'_> {
    // Its six bytes.
    #[tactic(auto, unfolding(telegram::specs::Telegrams::coded_at))]
    fn coded(&self) -> Coded
        ensures { result ≡ coded_at self.now.telegram.now self.now.k }
    {
        let at = 2 + 6 * self.k;
        Coded {
            number: self.telegram[at],
            kind: self.telegram[at + 1],
            first: wire::word(self.telegram[at + 2], self.telegram[at + 3]),
            second: wire::word(self.telegram[at + 4], self.telegram[at + 5]),
        }
    }

    // Whether a number stands in an earlier place.
    fn is_taken(&self, number: u8) -> bool
        ensures { result ≡ taken_before self.now.telegram.now self.now.k number }
    {
        for j in 0..self.k {
            if self.telegram[2 + 6 * j] == number {
                return true;
            }
        }
        false
    }

    // Its refusal: its own rows, and below them 14 where its number stands in an earlier place.
    #[tactic(auto, unfolding(kit::specs::Ladder::ladder))]
    fn refusal(&self) -> Result<(), Refusal>
        ensures { refusal_number result ≡ ladder 0 (place_rows self.now.telegram.now self.now.k) }
    {
        let coded = self.coded();
        condition::refusal_of(coded)?;
        if coded.number != 0 && self.is_taken(coded.number) {
            return Err(Refusal::NumberTwice);
        }
        Ok(())
    }

    // Its slot.
    fn slot(&self) -> Slot
        ensures { result ≡ slot_at self.now.telegram.now self.now.k }
    {
        let coded = self.coded();
        Slot {
            number: coded.number,
            body: condition::body_of(coded.kind, coded.first, coded.second),
        }
    }
}

// The refusal of 26 bytes: their packet, and then the first bad place.
fn refusal_within(telegram: &[u8; 26]) -> Result<(), Refusal>
    ensures { refusal_number result ≡ read_refusal telegram.now }
{
    if telegram::packet_in(telegram) < FIRST_PACKET {
        return Err(Refusal::NoTablePacket);
    }
    for k in 0..4 {
        Place { telegram, k }.refusal()?;
    }
    Ok(())
}

// The refusal of a telegram: its length comes first.
#[tactic(auto, unfolding(kit::specs::Ladder::ladder, telegram::specs::Telegrams::read_rows))]
pub fn refusal_of(bytes: &[u8]) -> Result<(), Refusal>
    ensures { refusal_number result ≡ read_refusal bytes.now }
{
    match bytes.as_array::<26>() {
        Some(telegram) => refusal_within(telegram),
        None => Err(Refusal::Length),
    }
}

// The slot of place k of a telegram; of bytes that are not 26 or a place that is not 0 to 3, an empty one.
#[tactic(auto, unfolding(crate::specs::Places::place_slot))]
pub fn place_slot(bytes: &[u8], k: usize) -> Slot
    ensures { result ≡ place_slot bytes.now k }
{
    match bytes.as_array::<26>() {
        Some(telegram) if k < 4 => Place { telegram, k }.slot(),
        _ => Slot::empty(),
    }
}

// What a telegram means.
#[tactic(auto, unfolding(telegram::specs::Telegrams::telegram_of))]
fn telegram_of(telegram: &[u8; 26]) -> Telegram
    ensures { result ≡ telegram_of telegram.now }
{
    Telegram {
        packet: telegram::packet_in(telegram),
        step: telegram::step_in(telegram),
        slots: [
            Place { telegram, k: 0 }.slot(),
            Place { telegram, k: 1 }.slot(),
            Place { telegram, k: 2 }.slot(),
            Place { telegram, k: 3 }.slot(),
        ],
    }
}

// What 26 bytes mean, or their refusal.
fn read_within(telegram: &[u8; 26]) -> Result<Telegram, Refusal>
    ensures { reading_in result ≡ read_of telegram.now }
{
    refusal_within(telegram)?;
    Ok(telegram_of(telegram))
}

// What a telegram of any bytes and any length means, or its refusal.
pub fn read(bytes: &[u8]) -> Result<Telegram, Refusal>
    ensures { reading_in result ≡ read_of bytes.now }
{
    match bytes.as_array::<26>() {
        Some(telegram) => read_within(telegram),
        None => Err(Refusal::Length),
    }
}
