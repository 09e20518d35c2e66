// A call that failed, told on error output.
ghost use Rattle.std.specs.Prelude.{◌≤◌};

use crate::system::System;
use program::Doing;
use std::io::{Error, ErrorKind, Write};
use text::Sheet;

impl System<'_> {
    // A line: the program, what it was doing, and the system's reason.
    #[tactic(auto, unfolding(text::specs::Putting::put_on))]
    pub(crate) fn tell(self, doing: Doing, name: &[u8], reason: &Error) {
        let mut line = [0u8; 4224];
        let mut sheet = Sheet::on(&mut line, 0);
        program::put_doing(self.program, doing, name, &mut sheet);
        let n = sheet.at;
        let mut text = [0u8; 128];
        let k = put_reason(reason, &mut text);
        self.say(&line[..n]);
        self.say(b": ");
        self.say(without_number(&text[..k]));
        self.say(b"\n");
    }

    // Where error output cannot be written, nothing can be told.
    pub(crate) fn say(self, bytes: &[u8]) {
        let _ = Print::write_all(&self.rt.stderr(), bytes);
    }
}

// Puts the text of an error, and answers how many bytes it has.
fn put_reason(reason: &Error, text: &mut [u8; 128]) -> usize
    ensures { result ≤ 128 }
{
    let mut rest: &mut [u8] = text;
    let _ = write!(rest, "{reason}");
    128usize.saturating_sub(rest.len())
}

// The text of a reason, which has the number of an error of the system behind it, in parentheses; without the number.
fn without_number(text: &[u8]) -> &[u8] {
    match std::str::from_utf8(text) {
        Ok(words) => match words.split_once(" (os error ") {
            Some((reason, _)) => reason.as_bytes(),
            None => text,
        },
        Err(_) => text,
    }
}

// Whether a call failed because a signal came first.
pub fn is_interrupted(error: &Error) -> bool {
    error.kind() == ErrorKind::Interrupted
}
