// What the program run_desk writes, computed in memory: lists in a slice, each after its length in two bytes, to tables and lines in two
// lent buffers; and the desk that the lists leave.
#![tactic(auto)]

ghost use Rattle.std.specs.Prelude.{◌≡◌};
ghost use Rattle.kit.specs.Put.{Poured};
ghost use Rattle.text.specs.Putting.{put_on};
ghost use Rattle.desk.specs.Desks.{base_rest, accept_of, Made};
ghost use Rattle.desk_runs.specs.Runs.{table_for, line_for, run_tables, refused_lines, desk_at_end};

use desk::{Answer, Desk};
use frames::Calls;
use text::Sheet;

// How many bytes were put into each of the two buffers. They stand beside the buffers, since those are lent from C.
#[derive(Clone, Copy)]
pub struct Ran {
    pub tables: usize,
    pub lines: usize,
}

// One list more: the table after it, or the line that it is refused. The answer is the desk after it. That the desk was made is asked for,
// and is no invariant of `Desk`: `desk_writer::write` takes any desk.
#[tactic(auto, using(text::proofs::Putting::put_none))]
fn take(
    before: Desk,
    list: &[u8],
    lists: u64,
    tables: &mut Sheet<'_>,
    lines: &mut Sheet<'_>,
) -> Desk
    requires { Made before }
    ensures { (result ≡ (accept_of base_rest before list.now).desk)
        × (tables.new ≡ put_on (table_for (accept_of base_rest before list.now).verdict (accept_of base_rest before list.now).desk) tables.old)
        × (lines.new ≡ put_on (line_for (accept_of base_rest before list.now).verdict lists) lines.old) }
{
    let Answer { verdict, desk } = before.accept(list);
    match verdict {
        Ok(()) => desk_output::put_table(desk, tables),
        Err(refusal) => desk_output::put_refused(refusal.into(), lists, lines),
    }
    desk
}

// Hands all lists to a fresh desk: the table after each that is accepted, and a line for each that is refused and where the input ends
// inside a list. What has no room before a sheet's end is dropped. The answer is the desk that the lists leave.
fn hand_over(input: &[u8], tables: &mut Sheet<'_>, lines: &mut Sheet<'_>) -> Desk
    ensures { (result ≡ desk_at_end input.now)
        × (tables.new ≡ put_on (run_tables input.now) tables.old)
        × (lines.new ≡ put_on (refused_lines input.now) lines.old) }
{
    let mut desk = Desk::fresh();
    let mut lists: u64 = 0;
    let calls = Calls {
        rest: input,
        bare: None,
    };
    for list in calls {
        let Ok(list) = list else {
            desk_output::put_short(lines);
            return desk;
        };
        lists += 1;
        desk = take(desk, list.bytes, lists, tables, lines);
    }
    desk
}

// The tables and the lines that come of all lists, into two buffers.
pub fn run(input: &[u8], tables: &mut [u8], lines: &mut [u8]) -> Ran
    ensures { Poured tables.old 0 (run_tables input.now) tables.new result.tables
        × Poured lines.old 0 (refused_lines input.now) lines.new result.lines }
{
    let mut table_sheet = Sheet::on(tables, 0);
    let mut line_sheet = Sheet::on(lines, 0);
    hand_over(input, &mut table_sheet, &mut line_sheet);
    Ran {
        tables: table_sheet.at,
        lines: line_sheet.at,
    }
}

// The desk that all lists leave, from a fresh one on. A refused list leaves it as it was, and so does an input's tail that is no whole list.
// What would be written has no room here.
pub fn desk_after(input: &[u8]) -> Desk
    ensures { result ≡ desk_at_end input.now }
{
    hand_over(
        input,
        &mut Sheet::on(&mut [], 0),
        &mut Sheet::on(&mut [], 0),
    )
}
