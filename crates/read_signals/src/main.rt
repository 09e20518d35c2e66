// Reads calls and hands them to the record of signals that it owns. A call is a length in two bytes, high first, and so many bytes; the
// length FFFFh, with nothing after it, is a call with no telegram. For each call a line goes to standard output.
#![tactic(auto)]

ghost use Rattle.std.specs.Prelude.{◌≡◌, option_copied};
ghost use Rattle.outcomes.specs.Ends.{where_short};
ghost use Rattle.signals.specs.Signals.{update_by};
ghost use Rattle.signals_output.specs.Lines.{short_call_line};

use outcomes::{End, Progress};
use program::Program;
use signals::{Signals, Updated};
use streams::{Output, Source, Stopped, System};
use text::Sheet;

fn main(rt: HostRuntime) {
    let system = System {
        rt: &rt,
        program: Program::ReadSignals,
    };
    // what stopped it was told
    system.run(|_, source, progress| follow(source, progress).unwrap_or(()));
}

// Keeps the record to the input's end, or to the first read or write that fails. The source and its progress come as two, as `System::run`
// hands them on; a record of them would be made for this call alone.
fn follow(source: &Source, begun: Progress) -> Result<(), Stopped> {
    let system = source.system;
    let mut signals = Signals::fresh();
    let mut progress = begun;
    for _ in 0..u64::MAX {
        let mut bytes = [0u8; 65535];
        match source.read_call(Some(frames::NO_TELEGRAM), &mut bytes) {
            Ok(telegram) => {
                let length = telegram.map_or(0, |bytes| bytes.len());
                progress = system.went_on(progress, frames::LENGTH + length);
                take(system, &mut signals, telegram)?;
            }
            Err(end) => {
                system.end_progress(progress);
                return system.write(Output::Standard, at_end(end));
            }
        }
    }
    Ok(())
}

// Hands one call to the record, which is lent for it, and shows the answer.
fn take(system: System, signals: &mut Signals, telegram: Option<&[u8]>) -> Result<(), Stopped>
    ensures { signals.new ≡ (update_by signals.old (option_copied telegram.entry)).signals }
{
    let updated = signals_in_place::lend_and_update_by(*signals, telegram);
    *signals = updated.signals;
    show_line(system, updated)
}

#[tactic(auto, unfolding(text::specs::Putting::put_on))]
fn show_line(system: System, updated: Updated) -> Result<(), Stopped> {
    let mut line = [0u8; 256];
    let mut sheet = Sheet::on(&mut line, 0);
    signals_output::put_line(updated, &mut sheet);
    let n = sheet.at;
    system.write(Output::Standard, &line[..n])
}

// What is said at the end: the line on a call that is not whole, where the input has ended inside one; after a read that failed, nothing.
// One function for two programs would be public and answer a slice, and of such an answer no theorem says that there is one.
#[tactic(auto, unfolding(signals_output::specs::Lines::short_call_line))]
fn at_end(end: End) -> &'static [u8]
    ensures { result.now ≡ where_short end short_call_line }
{
    if outcomes::is_short(end) {
        signals_output::SHORT_CALL
    } else {
        b""
    }
}
