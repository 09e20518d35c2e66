// The input: standard input or a file, read piece by piece.
ghost use Rattle.std.specs.Prelude.{◌≡◌, ◌≤◌, length, IfErr, IfNone, IfOk, IfSome, IsSome};
ghost use Rattle.io.specs.Counts.{IsPrefixLen};
ghost use Rattle.std.specs.Io.{ReadsAtMost};

use crate::output::Output;
use crate::system::System;
use crate::telling::is_interrupted;
use outcomes::{End, Moved, State};
use program::{Asked, Doing};
use std::env::Env;
use std::fs::{File, Files, OpenOptions};
use std::io;
use std::io::{Error, IsTerminal, Read};
use text::Sheet;

// What is read: standard input, a file, or nothing any more, where the place in the input was lost.
#[derive(Drop)]
pub enum Opened {
    Standard,
    File(File),
    Lost,
}

// What is read, by which program, and its name, which standard input has not.
#[derive(Drop)]
pub struct Source<'a> {
    pub system: System<'a>,
    pub opened: Opened,
    pub name: &'a [u8],
}

// The system's number for a text that is no text in UTF-8, and for a descriptor that is not open.
const NO_TEXT: i32 = 84;

const NOT_OPEN: i32 = 9;

impl<'a> System<'a> {
    // Opens the input, and puts its name into the lent buffer. Where it cannot be opened, that is told, and the answer is none.
    pub fn open(self, asked: Asked, name: &'a mut [u8]) -> Option<Source<'a>>
        ensures same_system { IfSome result (λ source. source.system ≡ self.entry) }
        ensures within { IfSome result (λ source. length source.name.now ≤ length name.old) }
    {
        let Some(at) = asked.file else {
            return Some(Source {
                system: self,
                opened: Opened::Standard,
                name: b"",
            });
        };
        let length = self.rt.arg(at, name).unwrap_or(0);
        let name = &name[..length];
        match self.open_file(name) {
            Ok(file) => Some(Source {
                system: self,
                opened: Opened::File(file),
                name,
            }),
            Err(error) => {
                self.tell(Doing::Opening, name, &error);
                None
            }
        }
    }

    // A file by its name, which is text.
    fn open_file(self, name: &[u8]) -> io::Result<File> {
        match std::str::from_utf8(name) {
            Ok(path) => self.rt.open_file(OpenOptions::new().read(true), path),
            Err(_) => Err(Error::from_raw_os_error(NO_TEXT)),
        }
    }
}

impl Source<'_> {
    // Says what is awaited, where the input is a terminal.
    #[tactic(auto, unfolding(text::specs::Putting::put_on))]
    pub fn say_awaiting(&self) {
        if self.is_terminal() {
            let mut line = [0u8; 128];
            let mut sheet = Sheet::on(&mut line, 0);
            program::put_awaiting(self.system.program, &mut sheet);
            let n = sheet.at;
            // a line that cannot be written is no loss: the input is read all the same
            let _ = self.system.write(Output::Errors, &line[..n]);
        }
    }

    fn is_terminal(&self) -> bool {
        match &self.opened {
            Opened::Standard => self.system.rt.stdin().is_terminal(),
            Opened::File(file) => file.is_terminal(),
            Opened::Lost => false,
        }
    }

    // What the system answers to one read.
    fn read_once(&self, buffer: &mut [u8]) -> io::Result<usize>
        ensures { ReadsAtMost result buffer.new }
    {
        match &self.opened {
            Opened::Standard => self.system.rt.stdin().read(buffer),
            Opened::File(file) => {
                let mut file = file;
                file.read(buffer)
            }
            Opened::Lost => Err(Error::from_raw_os_error(NOT_OPEN)),
        }
    }

    // One read, made again as often as it is interrupted.
    fn read_on(&self, buffer: &mut [u8]) -> io::Result<usize>
        ensures { ReadsAtMost result buffer.new }
    {
        for _ in 1..u64::MAX {
            let tried = self.read_once(buffer);
            if !outcomes::is_again(state_of(&tried)) {
                return tried;
            }
        }
        self.read_once(buffer)
    }

    // Tells of a read that failed.
    fn tell_read(&self, reason: &Error) {
        let doing = match self.opened {
            Opened::Standard => Doing::ReadingStandard,
            Opened::File(_) | Opened::Lost => Doing::ReadingFile,
        };
        self.system.tell(doing, self.name, reason);
    }

    // Reads what there is, up to the buffer's length, and answers how many bytes came, or that there are no more: the input has ended, or
    // the read failed, which is told.
    pub fn read(&self, buffer: &mut [u8]) -> Result<usize, State>
        ensures { ReadsAtMost result buffer.new }
    {
        match self.read_on(buffer) {
            Ok(count) => {
                let state = outcomes::read_of(count, false, false);
                if outcomes::is_over(state) {
                    Err(state)
                } else {
                    Ok(count)
                }
            }
            Err(reason) => {
                self.tell_read(&reason);
                Err(State::Failed)
            }
        }
    }

    // Reads until the buffer is full. Where the input ends before, or a read fails, which is told, the answer is how many bytes had come,
    // and which of the two it was.
    pub fn read_full(&self, buffer: &mut [u8]) -> Result<(), Moved>
        ensures { IfErr result (λ moved. IsPrefixLen moved.count buffer.new) }
    {
        let mut done: usize = 0;
        for _ in 0..u64::MAX {
            if done >= buffer.len() {
                break;
            }
            match self.read(&mut buffer[done..]) {
                Ok(count) => done += count,
                Err(state) => return Err(Moved { count: done, state }),
            }
        }
        Ok(())
    }

    // Reads the length of a list or call, two bytes, high first, and then so many bytes, and answers those. Behind a length that is bare
    // nothing follows, and the answer is none. Where the input has no more, it is how the input ended.
    pub fn read_call<'b>(
        &self,
        bare: Option<u16>,
        buffer: &'b mut [u8; 65535],
    ) -> Result<Option<&'b [u8]>, End>
        ensures { IfOk result (λ call. IfNone call (IsSome bare)) }
    {
        let mut head = [0u8; 2];
        self.read_full(&mut head)
            .map_err(|moved| outcomes::end_of(moved.state, 0 < moved.count))?;
        let length = u16::from_be_bytes(head);
        if bare == Some(length) {
            return Ok(None);
        }
        let bytes = &mut buffer[..length as usize];
        self.read_full(bytes)
            .map_err(|moved| outcomes::end_of(moved.state, true))?;
        Ok(Some(bytes))
    }
}

// What follows a read. Of a write it is another thing (output.rt).
fn state_of(tried: &io::Result<usize>) -> State {
    match tried {
        Ok(count) => outcomes::read_of(*count, false, false),
        Err(error) => outcomes::read_of(0, true, is_interrupted(error)),
    }
}
