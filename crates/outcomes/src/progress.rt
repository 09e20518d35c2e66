// How far a reading is: a line on a terminal that is written again and again in its place.
ghost use Rattle.std.specs.Prelude.{◌≡◌};
ghost use Rattle.text.specs.Putting.{put_on};
ghost use Rattle.outcomes.specs.Progress.{progress_of, advanced_by, is_due, progress_line};

use text::Sheet;

// Whether it is shown at all, how many bytes the input has, how many were read, and how many reads ago the line was written, modulo 128.
// A flag and no Option of the rest: `advanced` and `put_line` keep and put the counts of one that is not shown, too.
#[derive(Clone, Copy)]
pub struct Progress {
    pub shown: bool,
    pub size: u64,
    pub done: u64,
    pub reads: u8,
}

// The line is written at every so many reads.
const READS: u8 = 128;

impl Progress {
    // Before any read.
    pub fn of(shown: bool, size: u64) -> Self
        ensures { result ≡ progress_of shown size }
    {
        Progress {
            shown,
            size,
            done: 0,
            reads: 0,
        }
    }

    // After a read of so many bytes. The count stays at the greatest number that it can hold.
    pub fn advanced(self, count: u64) -> Self
        ensures { result ≡ advanced_by self count }
    {
        Progress {
            done: self.done.saturating_add(count),
            reads: (self.reads % READS + 1) % READS,
            ..self
        }
    }

    // Whether the line is written now.
    pub fn is_due(self) -> bool
        ensures { result ≡ is_due self }
    {
        self.shown && self.reads == 0
    }

    // `N of M bytes`, and a return to the beginning of the line, so that what is written next stands in its place.
    #[tactic(auto, unfolding(crate::specs::Progress::progress_line), using(text::proofs::Putting::put_next))]
    pub fn put_line(self, sheet: &mut Sheet<'_>)
        ensures { sheet.new ≡ put_on (progress_line self) sheet.old }
    {
        sheet.put_decimal(self.done);
        sheet.put_words(b" of ");
        sheet.put_decimal(self.size);
        sheet.put_words(b" bytes\r");
    }
}
