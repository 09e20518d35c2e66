// What the program read_signals writes, computed in memory: calls in a slice, each after its length in two bytes, to lines in a lent
// buffer.
#![tactic(auto)]

ghost use Rattle.std.specs.Prelude.{◌≡◌};
ghost use Rattle.kit.specs.Put.{Poured};
ghost use Rattle.text.specs.Putting.{put_on};
ghost use Rattle.signals_output.specs.Lines.{line_of};
ghost use Rattle.signal_runs.specs.Runs.{updated_by, signal_lines};

use frames::{Calls, NO_TELEGRAM, WholeCall};
use signals::Signals;
use text::Sheet;

// One call: its line, and the next record. The record is lent for the call and updated where it is.
#[tactic(auto, unfolding(crate::specs::Runs::updated_by, signals::specs::Signals::update_of))]
fn tell(signals: Signals, call: WholeCall, sheet: &mut Sheet<'_>) -> Signals
    ensures { (result ≡ (updated_by signals (call.entry.length, call.entry.bytes.now)).signals)
        × (sheet.new ≡ put_on (line_of (updated_by signals (call.entry.length, call.entry.bytes.now))) sheet.old) }
{
    let telegram = (call.length != NO_TELEGRAM).then_some(call.bytes);
    let updated = signals_in_place::lend_and_update_by(signals, telegram);
    signals_output::put_line(updated, sheet);
    updated.signals
}

// The lines of all calls, from a fresh record on, and `short call` where the input ends inside one; the answer is the place past them.
// What has no room before the buffer's end is dropped.
pub fn read(input: &[u8], lines: &mut [u8]) -> usize
    ensures { Poured lines.old 0 (signal_lines input.now) lines.new result }
{
    let mut sheet = Sheet::on(lines, 0);
    let mut signals = Signals::fresh();
    let calls = Calls {
        rest: input,
        bare: Some(NO_TELEGRAM),
    };
    for call in calls {
        let Ok(call) = call else {
            signals_output::put_short(&mut sheet);
            return sheet.at;
        };
        signals = tell(signals, call, &mut sheet);
    }
    sheet.at
}
