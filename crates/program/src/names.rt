// The programs, by name.
ghost use Rattle.std.specs.Prelude.{◌≡◌};
ghost use Rattle.text.specs.Putting.{put_on};
ghost use Rattle.program.specs.Names.{name_of};

use text::Sheet;

#[derive(Clone, Copy, Debug, PartialEq, Eq)]
pub enum Program {
    ListConditions,
    RunDesk,
    ReadSignals,
}

// By a match, as the other texts of a program are: a table of texts would rest on the order of the cases.
fn name(program: Program) -> &'static [u8]
    ensures { result.now ≡ name_of program }
{
    match program {
        Program::ListConditions => b"list_conditions",
        Program::RunDesk => b"run_desk",
        Program::ReadSignals => b"read_signals",
    }
}

pub fn put_name(program: Program, sheet: &mut Sheet<'_>)
    ensures { sheet.new ≡ put_on (name_of program) sheet.old }
{
    sheet.put_words(name(program));
}
