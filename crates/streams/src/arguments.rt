// The program's arguments.
use crate::output::Output;
use crate::system::System;
use program::{Argument, Asked, Doing};
use std::env::{Env, FillError};
use std::io::Error;
use text::Sheet;

// The system's numbers for an argument that is not there, and for a name that is too long.
const NOT_THERE: i32 = 22;

const TOO_LONG: i32 = 36;

impl System<'_> {
    // What the arguments ask for, the program's own name left out.
    pub fn asked(self) -> Asked {
        let mut asked = Asked::nothing();
        for i in 1..usize::MAX {
            let Some(next) = self.with_argument(asked, i) else {
                break;
            };
            asked = next;
        }
        asked
    }

    // With one argument more, where there is one. One that is too long for a path is told as one that could not be taken.
    fn with_argument(self, asked: Asked, i: usize) -> Option<Asked> {
        let mut word = [0u8; 4096];
        match self.rt.arg(i, &mut word) {
            Ok(n) => Some(asked.with(self.program, program::argument_of(&word[..n]), i)),
            Err(FillError::TooLong) => Some(asked.with(self.program, Argument::Unknown, i)),
            Err(FillError::NotPresent) => None,
        }
    }

    // Says what is asked for, where it is not the work: the help or the version on standard output, a line on error output on an argument
    // that is not understood.
    pub fn answer(self, asked: Asked) {
        let mut word = [0u8; 4096];
        // where no argument decided it, the word is the program's own name
        let at = asked.at.unwrap_or(0);
        match self.rt.arg(at, &mut word) {
            Ok(n) => self.say_answer(asked, &word[..n]),
            Err(error) => self.tell(Doing::TakingArgument, b"", &reason_of(error)),
        }
    }

    #[tactic(auto, unfolding(text::specs::Putting::put_on))]
    fn say_answer(self, asked: Asked, word: &[u8]) {
        let mut out = [0u8; 4224];
        let mut sheet = Sheet::on(&mut out, 0);
        program::put_answer(self.program, asked.task, word, &mut sheet);
        let k = sheet.at;
        let output = if program::is_complaint(asked.task) {
            Output::Errors
        } else {
            Output::Standard
        };
        // it is the last thing that is done
        let _ = self.write(output, &out[..k]);
    }
}

// Why an argument could not be taken, as the system says it.
fn reason_of(error: FillError) -> Error {
    match error {
        FillError::NotPresent => Error::from_raw_os_error(NOT_THERE),
        FillError::TooLong => Error::from_raw_os_error(TOO_LONG),
    }
}
