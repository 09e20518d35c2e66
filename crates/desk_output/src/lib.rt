// What the program run_desk writes: the table of a desk as its five telegrams, a line for each list that is refused, and one where
// the input ends inside a list.
#![tactic(auto)]

ghost use Rattle.std.specs.Prelude.{◌≤◌, ◌≡◌};
ghost use Rattle.text.specs.Putting.{put_on};
ghost use Rattle.telegram.specs.Telegrams.{bytes_of};
ghost use Rattle.desk_output.specs.Outputs.{five_telegrams, refused_list_line, short_list_line};

use condition::Slot;
use desk::Desk;
use telegram::Telegram;
use text::{LINE_FEED, Sheet};

// One packet, by the step number and the four slots that it carries.
fn put_packet(step: u16, packet: u8, slots: [Slot; 4], sheet: &mut Sheet<'_>)
    requires { (3 ≤ packet) × (packet ≤ 7) }
    ensures { sheet.new ≡ put_on (bytes_of (record { packet = packet; step = step; slots = slots })) sheet.old }
{
    let telegram = Telegram {
        packet,
        step,
        slots,
    };
    let mut bytes = [0u8; 26];
    telegram_writer::write(telegram, &mut bytes).unwrap();
    sheet.put_words(&bytes);
}

// The table as five telegrams, packets 3 to 7: 130 bytes. It is made once, and each packet is handed its four slots alone. Five calls and no
// loop: in each the packet is known when this is compiled; in a loop a step took some 3,500 instructions more, and a fifth of the time.
pub fn put_table(desk: Desk, sheet: &mut Sheet<'_>)
    ensures { sheet.new ≡ put_on (five_telegrams desk) sheet.old }
{
    let table = desk_writer::table_of(desk);
    put_packet(desk.step, 3, telegram::four_of(table, 3), sheet);
    put_packet(desk.step, 4, telegram::four_of(table, 4), sheet);
    put_packet(desk.step, 5, telegram::four_of(table, 5), sheet);
    put_packet(desk.step, 6, telegram::four_of(table, 6), sheet);
    put_packet(desk.step, 7, telegram::four_of(table, 7), sheet);
}

// `refused N at list I` and a line feed. It takes every number: a `Refusal` would ask more of a caller.
#[tactic(auto, unfolding(crate::specs::Outputs::refused_list_line), using(text::proofs::Putting::put_next))]
pub fn put_refused(number: u8, list: u64, line: &mut Sheet<'_>)
    ensures { line.new ≡ put_on (refused_list_line number list) line.old }
{
    line.put_words(b"refused ");
    line.put_decimal(number as u64);
    line.put_words(b" at list ");
    line.put_decimal(list);
    line.put_byte(LINE_FEED);
}

// What is said where the input ends inside a list; of a call `signals_output` says so. One function for both would be `Sheet::put_words`.
pub const SHORT_LIST: &[u8] = b"short list\n";

#[tactic(auto, unfolding(crate::specs::Outputs::short_list_line))]
pub fn put_short(line: &mut Sheet<'_>)
    ensures { line.new ≡ put_on short_list_line line.old }
{
    line.put_words(SHORT_LIST);
}
