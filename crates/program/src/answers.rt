// What a program says where it is asked for something else than its work, and that it waits for input.
ghost use Rattle.std.specs.Prelude.{◌≡◌};
ghost use Rattle.text.specs.Putting.{put_on};
ghost use Rattle.program.specs.Answers.{is_complaint, version_line, complaint_of, answer_of, awaited_of, awaiting_line};

use crate::arguments::Task;
use crate::help::put_help;
use crate::names::{Program, put_name};
use text::Sheet;

// Whether what is said goes to error output.
pub fn is_complaint(task: Task) -> bool
    ensures { result ≡ is_complaint task }
{
    matches!(task, Task::NotUnderstood | Task::OneInputOnly)
}

fn put_version(program: Program, sheet: &mut Sheet<'_>)
    ensures { sheet.new ≡ put_on (version_line program) sheet.old }
{
    put_name(program, sheet);
    sheet.put_words(
        b" 1.1.0 (Bravolith track conditions box), proved with rattle-kit-13f logic dac8208d650f15bf\n",
    );
}

// A line on an argument: the words before it and those after it.
#[tactic(auto, unfolding(crate::specs::Answers::complaint_of), using(text::proofs::Putting::put_next))]
fn put_complaint(program: Program, before: &[u8], word: &[u8], after: &[u8], sheet: &mut Sheet<'_>)
    ensures { sheet.new ≡ put_on (complaint_of program before.now word.now after.now) sheet.old }
{
    put_name(program, sheet);
    sheet.put_words(before);
    sheet.put_words(word);
    sheet.put_words(after);
}

// What is said for a task: the help, the version, or a line on the argument that decided it. Of the work nothing is said.
#[tactic(auto, using(text::proofs::Putting::put_none))]
pub fn put_answer(program: Program, task: Task, word: &[u8], sheet: &mut Sheet<'_>)
    ensures { sheet.new ≡ put_on (answer_of program task word.now) sheet.old }
{
    match task {
        Task::Work => {}
        Task::ShowHelp => put_help(program, sheet),
        Task::ShowVersion => put_version(program, sheet),
        Task::NotUnderstood => put_complaint(
            program,
            b": not understood: ",
            word,
            b" (--help says what is)\n",
            sheet,
        ),
        Task::OneInputOnly => put_complaint(program, b": one input only: ", word, b"\n", sheet),
    }
}

fn awaited(program: Program) -> &'static [u8]
    ensures { result.now ≡ awaited_of program }
{
    match program {
        Program::ListConditions => b"telegrams of 26 bytes",
        Program::RunDesk => b"lists, each after its length in two bytes",
        Program::ReadSignals => b"calls, each after its length in two bytes",
    }
}

// That input is awaited, where it is a terminal.
pub fn put_awaiting(program: Program, sheet: &mut Sheet<'_>)
    ensures { sheet.new ≡ put_on (awaiting_line program) sheet.old }
{
    put_name(program, sheet);
    sheet.put_words(b": awaiting ");
    sheet.put_words(awaited(program));
    sheet.put_words(b"; --help says more\n");
}
