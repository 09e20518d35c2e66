// What a program's arguments ask for.
ghost use Rattle.std.specs.Prelude.{◌≡◌};
ghost use Rattle.program.specs.Arguments.{argument_of, is_work, has_summary, nothing_asked, decided_by, with_input, with_summary, with_progress, by_argument, asked_with};

use crate::names::Program;

// What one argument is: standard input, an option, a word that begins as one and is none, or the name of a file.
#[derive(Clone, Copy, Debug, PartialEq, Eq)]
pub enum Argument {
    Standard,
    Help,
    Version,
    Summary,
    Progress,
    Unknown,
    Name,
}

// What a program is to do: its work, show its help or its version, or tell of an argument that is not understood or of a second input.
#[derive(Clone, Copy, Debug, PartialEq, Eq)]
pub enum Task {
    Work,
    ShowHelp,
    ShowVersion,
    NotUnderstood,
    OneInputOnly,
}

// What the arguments ask for together.
#[derive(Clone, Copy)]
pub struct Asked {
    pub task: Task,
    // the argument that decided the task, none where it is the work. It stands beside the task, since `with` takes records of any two
    pub at: Option<usize>,
    // whether an input was named, standard input or a file. An Option of the input in place of both would leave out records that `with`
    // takes
    pub given: bool,
    // the argument that names the file, none for standard input
    pub file: Option<usize>,
    pub summary: bool,
    pub progress: bool,
}

#[tactic(auto, unfolding(crate::specs::Arguments::argument_of, crate::specs::Arguments::is_option, kit::specs::Ladder::ladder, same_text::specs::Same::is_same_text, kit::specs::Loops::scan))]
pub fn argument_of(text: &[u8]) -> Argument
    ensures { result ≡ argument_of text.now }
{
    match text {
        b"-" => Argument::Standard,
        b"--help" => Argument::Help,
        b"--version" => Argument::Version,
        b"--summary" => Argument::Summary,
        b"--progress" => Argument::Progress,
        [b'-', ..] => Argument::Unknown,
        _ => Argument::Name,
    }
}

pub fn is_work(task: Task) -> bool
    ensures { result ≡ is_work task }
{
    matches!(task, Task::Work)
}

// Whether a program has a summary to show.
fn has_summary(program: Program) -> bool
    ensures { result ≡ has_summary program }
{
    matches!(program, Program::ListConditions)
}

impl Asked {
    // Before any argument.
    pub fn nothing() -> Self
        ensures { result ≡ nothing_asked }
    {
        Asked {
            task: Task::Work,
            at: None,
            given: false,
            file: None,
            summary: false,
            progress: false,
        }
    }

    // With one argument more, the one of this index. The first that asks for something else than the work decides.
    pub fn with(self, program: Program, argument: Argument, at: usize) -> Self
        ensures { result ≡ asked_with program self argument at }
    {
        if is_work(self.task) {
            self.by_argument(program, argument, at)
        } else {
            self
        }
    }

    // What one argument more asks for, where all before it ask for the work.
    fn by_argument(self, program: Program, argument: Argument, at: usize) -> Self
        ensures { result ≡ by_argument program self argument at }
    {
        match argument {
            Argument::Standard => self.with_input(None, at),
            Argument::Help => self.decided(Task::ShowHelp, at),
            Argument::Version => self.decided(Task::ShowVersion, at),
            Argument::Summary => self.with_summary(program, at),
            Argument::Progress => self.with_progress(),
            Argument::Unknown => self.decided(Task::NotUnderstood, at),
            Argument::Name => self.with_input(Some(at), at),
        }
    }

    fn decided(self, task: Task, at: usize) -> Self
        ensures { result ≡ decided_by self task at }
    {
        Asked {
            task,
            at: Some(at),
            ..self
        }
    }

    // With its input, a file or standard input, where none was named before.
    fn with_input(self, file: Option<usize>, at: usize) -> Self
        ensures { result ≡ with_input self file at }
    {
        if self.given {
            return self.decided(Task::OneInputOnly, at);
        }
        Asked {
            task: Task::Work,
            at: None,
            given: true,
            file,
            ..self
        }
    }

    // With a summary, where the program has one.
    fn with_summary(self, program: Program, at: usize) -> Self
        ensures { result ≡ with_summary program self at }
    {
        if !has_summary(program) {
            return self.decided(Task::NotUnderstood, at);
        }
        Asked {
            task: Task::Work,
            at: None,
            summary: true,
            ..self
        }
    }

    fn with_progress(self) -> Self
        ensures { result ≡ with_progress self }
    {
        Asked {
            task: Task::Work,
            at: None,
            progress: true,
            ..self
        }
    }
}
