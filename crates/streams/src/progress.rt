// How far the reading is, on error output where that is a terminal.
ghost use Rattle.std.specs.Prelude.{◌≡◌, false, IfNone};
ghost use Rattle.streams.specs.Inputs.{is_standard};

use crate::input::{Opened, Source};
use crate::system::System;
use outcomes::Progress;
use program::Asked;
use std::fs::{File, Files, OpenOptions};
use std::io;
use std::io::{IsTerminal, Read, Seek, SeekFrom};
use text::Sheet;

impl Source<'_> {
    // Whether it is shown: it was asked for, error output is a terminal, and how many bytes the input still has is known and not 0.
    pub fn progress_of(&mut self, asked: Asked) -> Progress
        ensures same_name { self.new.name.now ≡ self.old.name.now }
        ensures same_kind { is_standard self.new.opened ≡ is_standard self.old.opened }
        ensures same_system { self.new.system ≡ self.old.system }
    {
        if !asked.progress || !self.system.rt.stderr().is_terminal() {
            return Progress::of(false, 0);
        }
        let Some(left) = self.left() else {
            // no byte may be read from another place, so that the next read must fail, which is told
            self.opened = Opened::Lost;
            return Progress::of(false, 0);
        };
        Progress::of(0 < left, left)
    }

    // How many bytes the input still has, 0 where that is not known, or none where the place in it was lost. Standard input is not sought.
    fn left(&self) -> Option<u64>
        ensures { IfNone result (is_standard self.now.opened ≡ false) }
    {
        match &self.opened {
            Opened::Standard => Some(self.system.left_of_standard().unwrap_or(0)),
            Opened::File(file) => left_of_file(file).unwrap_or(Some(0)),
            Opened::Lost => Some(0),
        }
    }
}

// The place in a file is sought at its end and then where it was.
fn left_of_file(file: &File) -> io::Result<Option<u64>> {
    let mut file = file;
    let from = file.seek(SeekFrom::Current(0))?;
    let end = file.seek(SeekFrom::End(0));
    let back = file.seek(SeekFrom::Start(from));
    if back.ok() == Some(from) {
        Ok(Some(end.unwrap_or(0).saturating_sub(from)))
    } else {
        Ok(None)
    }
}

impl System<'_> {
    // Where standard input is a file, the system says in files of its own how long it is and which place it is at.
    fn left_of_standard(self) -> io::Result<u64> {
        let metadata = self.rt.metadata("/proc/self/fd/0")?;
        let mut file = self
            .rt
            .open_file(OpenOptions::new().read(true), "/proc/self/fdinfo/0")?;
        let mut text = [0u8; 64];
        let n = file.read(&mut text)?;
        let from = place_in(&text[..n]).unwrap_or(u64::MAX);
        Ok(metadata.len().saturating_sub(from))
    }

    // After a read of so many bytes.
    pub fn went_on(self, progress: Progress, count: usize) -> Progress {
        let next = progress.advanced(count as u64);
        if next.is_due() {
            self.show(next);
        }
        next
    }

    // The last line, and its end, where something was read.
    pub fn end_progress(self, progress: Progress) {
        if progress.shown && progress.done > 0 {
            self.show(progress);
            self.say(b"\n");
        }
    }

    // A line that cannot be written is no loss: the work goes on.
    #[tactic(auto, unfolding(text::specs::Putting::put_on))]
    fn show(self, progress: Progress) {
        let mut line = [0u8; 64];
        let mut sheet = Sheet::on(&mut line, 0);
        progress.put_line(&mut sheet);
        let n = sheet.at;
        self.say(&line[..n]);
    }
}

// The number in a first line `pos: N`.
fn place_in(text: &[u8]) -> Option<u64> {
    let words = std::str::from_utf8(text).ok()?;
    let (line, _) = words.split_once('\n')?;
    line.strip_prefix("pos:")?.trim().parse::<u64>().ok()
}
