// Reads lists of orders, each after its length in two bytes, high first, and hands them to a desk. For each accepted list the table goes to
// standard output as five telegrams; for each refused one a line goes to error output.
#![tactic(auto)]

ghost use Rattle.std.specs.Prelude.{◌≡◌};
ghost use Rattle.outcomes.specs.Ends.{where_short};
ghost use Rattle.desk.specs.Desks.{base_rest, accept_of, Made};
ghost use Rattle.desk_output.specs.Outputs.{short_list_line};

use desk::Desk;
use outcomes::{End, Progress};
use program::Program;
use streams::{Output, Source, Stopped, System};
use text::Sheet;
use wire::Refusal;

fn main(rt: HostRuntime) {
    let system = System {
        rt: &rt,
        program: Program::RunDesk,
    };
    // what stopped it was told
    system.run(|_, source, progress| run(source, progress).unwrap_or(()));
}

// Runs the desk to the input's end, or to the first read or write that fails. The source and its progress come as two, as `System::run`
// hands them on; a record of them would be made for this call alone.
fn run(source: &Source, begun: Progress) -> Result<(), Stopped> {
    let system = source.system;
    let mut desk = Desk::fresh();
    let mut progress = begun;
    for lists in 1..=u64::MAX {
        let mut bytes = [0u8; 65535];
        match source.read_call(None, &mut bytes) {
            Ok(Some(list)) => {
                progress = system.went_on(progress, frames::LENGTH + list.len());
                take(system, &mut desk, list, lists)?;
            }
            // no length is bare
            Ok(None) => unreachable!(),
            Err(end) => {
                system.end_progress(progress);
                return system.write(Output::Errors, at_end(end));
            }
        }
    }
    Ok(())
}

// Hands one list to the desk and shows its answer. That the desk was made is asked for, and is no invariant of `Desk`: `desk_writer::write`
// takes any desk.
fn take(system: System, desk: &mut Desk, list: &[u8], lists: u64) -> Result<(), Stopped>
    requires { Made desk.old }
    ensures { desk.new ≡ (accept_of base_rest desk.old list.now).desk }
{
    let answer = desk.accept(list);
    *desk = answer.desk;
    match answer.verdict {
        Ok(()) => show_table(system, answer.desk),
        Err(refusal) => show_refused(system, refusal, lists),
    }
}

fn show_table(system: System, desk: Desk) -> Result<(), Stopped> {
    let mut out = [0u8; 130];
    desk_output::put_table(desk, &mut Sheet::on(&mut out, 0));
    system.write(Output::Standard, &out)
}

#[tactic(auto, unfolding(text::specs::Putting::put_on))]
fn show_refused(system: System, refusal: Refusal, lists: u64) -> Result<(), Stopped> {
    let mut line = [0u8; 64];
    let mut sheet = Sheet::on(&mut line, 0);
    desk_output::put_refused(u8::from(refusal), lists, &mut sheet);
    let n = sheet.at;
    system.write(Output::Errors, &line[..n])
}

// What is said at the end: the line on a list that is not whole, where the input has ended inside one; after a read that failed, nothing.
// One function for two programs would be public and answer a slice, and of such an answer no theorem says that there is one.
#[tactic(auto, unfolding(desk_output::specs::Outputs::short_list_line))]
fn at_end(end: End) -> &'static [u8]
    ensures { result.now ≡ where_short end short_list_line }
{
    if outcomes::is_short(end) {
        desk_output::SHORT_LIST
    } else {
        b""
    }
}
