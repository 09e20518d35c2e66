// Telegrams of any length, heard in memory: telegrams in a slice, each after its length in two bytes, to the lines that a listing has for
// them, in a lent buffer.
#![tactic(auto)]

ghost use Rattle.kit.specs.Put.{Poured};
ghost use Rattle.hearing_runs.specs.Runs.{lines_heard};

use frames::Calls;
use text::Sheet;

// The lines of all telegrams, heard by a fresh listener, and `short telegram` where the input ends inside one; the answer is the place
// past them. What has no room before the buffer's end is dropped.
pub fn hear(input: &[u8], lines: &mut [u8]) -> usize
    ensures { Poured lines.old 0 (lines_heard input.now) lines.new result }
{
    let mut sheet = Sheet::on(lines, 0);
    let mut memory = [0u8; 310];
    let telegrams = Calls {
        rest: input,
        bare: None,
    };
    for telegram in telegrams {
        let Ok(telegram) = telegram else {
            sheet.put_words(b"short telegram\n");
            return sheet.at;
        };
        let answer = listener::hear_in(&mut memory, telegram.bytes);
        listing_tables::put_heard(answer, &memory, &mut sheet);
    }
    sheet.at
}
