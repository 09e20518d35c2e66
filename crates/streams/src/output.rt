// Standard output and error output.
use crate::system::System;
use crate::telling::is_interrupted;
use outcomes::State;
use program::Doing;
use std::io;
use std::io::{Error, ErrorKind};

// Which of the two is written to.
#[derive(Clone, Copy)]
pub enum Output {
    Standard,
    Errors,
}

// A write failed, which was told, so that there is no more to be done than to stop.
#[derive(Clone, Copy)]
pub struct Stopped;

impl System<'_> {
    // Writes all of these bytes, or stops at the first write that fails, and tells it. Not by the library's `write_all`: what follows each
    // write is decided by `outcomes`, where it is proved. The loop has an end, here and in reading: one without would be a wait. Who writes
    // a line puts it on a sheet over a buffer of its own before: one function for all would take the buffer's size and a closure with its
    // clause.
    pub fn write(self, output: Output, bytes: &[u8]) -> Result<(), Stopped> {
        let mut rest = bytes;
        for _ in 0..u64::MAX {
            if rest.is_empty() {
                return Ok(());
            }
            let tried = match output {
                Output::Standard => self.rt.stdout().write_some(rest),
                Output::Errors => self.rt.stderr().write_some(rest),
            };
            if outcomes::is_failed(state_of(&tried)) {
                self.tell_write(output, tried.err());
                return Err(Stopped);
            }
            rest = &rest[tried.unwrap_or(0)..];
        }
        Err(Stopped)
    }

    // Tells of a write that failed. The system has no reason for one that took nothing.
    fn tell_write(self, output: Output, reason: Option<Error>) {
        let doing = match output {
            Output::Standard => Doing::Writing,
            Output::Errors => Doing::Telling,
        };
        let reason = reason.unwrap_or(Error::from(ErrorKind::WriteZero));
        self.tell(doing, b"", &reason);
    }
}

// What follows a write. Of a read it is another thing (input.rt).
fn state_of(tried: &io::Result<usize>) -> State {
    match tried {
        Ok(count) => outcomes::write_of(*count, false, false),
        Err(error) => outcomes::write_of(0, true, is_interrupted(error)),
    }
}
