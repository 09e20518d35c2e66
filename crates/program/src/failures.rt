// What a program was doing when a call failed. The system's reason follows it on the line, after a colon and a blank.
ghost use Rattle.std.specs.Prelude.{◌≡◌};
ghost use Rattle.text.specs.Putting.{put_on};
ghost use Rattle.program.specs.Failures.{doing_words, doing_text};

use crate::names::{Program, put_name};
use text::Sheet;

#[derive(Clone, Copy)]
pub enum Doing {
    ReadingStandard,
    ReadingFile,
    Opening,
    Writing,
    Telling,
    TakingArgument,
}

// By a match that puts, and no text for each case, since two have a name behind it.
#[tactic(auto, using(text::proofs::Putting::put_next))]
fn put_words_of(doing: Doing, name: &[u8], sheet: &mut Sheet<'_>)
    ensures { sheet.new ≡ put_on (doing_words doing name.now) sheet.old }
{
    match doing {
        Doing::ReadingStandard => sheet.put_words(b"reading standard input"),
        Doing::ReadingFile => {
            sheet.put_words(b"reading ");
            sheet.put_words(name);
        }
        Doing::Opening => {
            sheet.put_words(b"opening ");
            sheet.put_words(name);
        }
        Doing::Writing => sheet.put_words(b"writing standard output"),
        Doing::Telling => sheet.put_words(b"writing error output"),
        Doing::TakingArgument => sheet.put_words(b"taking an argument"),
    }
}

// The program's name, and what it was doing; a file has its name there. The name stands beside what was doing and in none of its cases: of
// all six it is promised what is put, whatever the name.
#[tactic(auto, unfolding(crate::specs::Failures::doing_text), using(text::proofs::Putting::put_next))]
pub fn put_doing(program: Program, doing: Doing, name: &[u8], sheet: &mut Sheet<'_>)
    ensures { sheet.new ≡ put_on (doing_text program doing name.now) sheet.old }
{
    put_name(program, sheet);
    sheet.put_words(b": ");
    put_words_of(doing, name, sheet);
}
