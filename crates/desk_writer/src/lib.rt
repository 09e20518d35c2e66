// The desk's table, and its five packets written as telegrams.
#![tactic(auto)]

ghost use Rattle.std.specs.Prelude.{◌≡◌};
ghost use Rattle.wire.specs.Verdicts.{verdict_in};
ghost use Rattle.telegram.specs.Telegrams.{write_verdict, written};
ghost use Rattle.desk.specs.Desks.{table_of, packet_of};

use condition::Slot;
use desk::Desk;
use std::array;
use telegram::Telegram;
use wire::Refusal;

// The twenty slots. By `from_fn`, as `places::orders_of`, with whose `map` a desk took half as long again for a list.
pub fn table_of(desk: Desk) -> [Slot; 20]
    ensures { result ≡ table_of desk }
{
    array::from_fn(|i| desk.places[i].slot)
}

// Writes one packet of the table into a buffer of any length, or refuses and leaves the buffer as it is.
pub fn write(desk: Desk, packet: u8, buffer: &mut [u8]) -> Result<(), Refusal>
    ensures { (verdict_in result ≡ write_verdict (packet_of desk packet) buffer.old)
        × (buffer.new ≡ written (packet_of desk packet) buffer.old) }
{
    let table = table_of(desk);
    let telegram = Telegram {
        packet,
        step: desk.step,
        slots: telegram::four_of(table, packet),
    };
    telegram_writer::write(telegram, buffer)
}
