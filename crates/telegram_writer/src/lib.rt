// Writing a telegram into a buffer of any length: refused 9, then 10, with no byte changed, or all 26 bytes.
#![tactic(auto)]

ghost use Rattle.std.specs.Prelude.{◌≡◌};
ghost use Rattle.wire.specs.Verdicts.{verdict_in};
ghost use Rattle.condition.specs.Slots.{six_of};
ghost use Rattle.telegram.specs.Telegrams.{bytes_of, write_verdict, written};

use condition::Coded;
use telegram::{FIRST_PACKET, LAST_PACKET, Telegram};
use wire::{Refusal, STEPS};

// The six bytes of a slot as it is coded.
#[tactic(auto, unfolding(condition::specs::Slots::six_of))]
fn six_of(coded: Coded) -> [u8; 6]
    ensures { result ≡ six_of coded }
{
    let [first_high, first_low] = coded.first.to_be_bytes();
    let [second_high, second_low] = coded.second.to_be_bytes();
    [
        coded.number,
        coded.kind,
        first_high,
        first_low,
        second_high,
        second_low,
    ]
}

// The head has the packet number in its top three bits and the step number in the low thirteen.
fn put_telegram(buffer: &mut [u8; 26], telegram: Telegram)
    ensures { buffer.new ≡ bytes_of telegram }
{
    let head = (telegram.packet % 8) as u16 * STEPS + telegram.step % STEPS;
    buffer[..2].copy_from_slice(&head.to_be_bytes());
    for (k, slot) in telegram.slots.iter().enumerate() {
        buffer[2 + 6 * k..8 + 6 * k].copy_from_slice(&six_of(condition::coded_of(*slot)));
    }
}

// Writes a telegram into a buffer of any length, or refuses and leaves the buffer as it is.
pub fn write(telegram: Telegram, buffer: &mut [u8]) -> Result<(), Refusal>
    ensures { (verdict_in result ≡ write_verdict telegram buffer.old) × (buffer.new ≡ written telegram buffer.old) }
{
    if !(FIRST_PACKET..=LAST_PACKET).contains(&telegram.packet) {
        return Err(Refusal::NoSuchPacket);
    }
    match buffer.as_mut_array::<26>() {
        Some(room) => {
            put_telegram(room, telegram);
            Ok(())
        }
        None => Err(Refusal::Length),
    }
}
