// What the program read_signals writes: a line for each call, and one where the input ends inside a call.
#![tactic(auto)]

mod words;

ghost use Rattle.std.specs.Prelude.{◌≡◌};
ghost use Rattle.page.specs.Pages.{room_for, PagedOn};
ghost use Rattle.kit.specs.Each.{each};
ghost use Rattle.text.specs.Putting.{put_on};
ghost use Rattle.signals.specs.Answers.{noted_of, updating_of};
ghost use Rattle.signals_output.specs.Lines.{answer_words, misses_word, national_word, state_words, line_of, short_call_line};

use signals::{Answer, Updated};
use text::{BLANK, LINE_FEED, Sheet};
use train_codes::Isolation;
use train_telegram::States;

// This and each function below asks for the room of what it puts, and no two of them for the same.
fn put_answer(answer: Answer, page: &mut Sheet<'_>)
    requires { room_for 16 page.old }
    ensures { PagedOn 13 (answer_words (noted_of answer)) page.old page.new }
{
    match answer {
        Answer::Accepted => page::put_short_text(b"accepted", page),
        Answer::Missed => page::put_short_text(b"missed", page),
        Answer::Refused(number) => {
            page::put_short_text(b"refused ", page);
            page::put_bare_number(number.into(), page);
        }
    }
}

fn put_misses(misses: u8, page: &mut Sheet<'_>)
    requires { room_for 9 page.old }
    ensures { PagedOn 6 (misses_word misses) page.old page.new }
{
    page::put_byte(BLANK, page);
    page::put_bare_number(misses.into(), page);
}

// The sixteen systems, from 1.
fn put_national(national: [Isolation; 16], page: &mut Sheet<'_>)
    requires { room_for 256 page.old }
    ensures { PagedOn 256 (each (national_word national) 0 16) page.old page.new }
{
    for isolation in &national {
        page::put_word(words::isolation_word(*isolation), page);
    }
}

#[tactic(auto, unfolding(crate::specs::Lines::state_words))]
fn put_states(states: States, page: &mut Sheet<'_>)
    requires { room_for 304 page.old }
    ensures { PagedOn 304 (state_words states) page.old page.new }
{
    page::put_word(words::cab_word(states.cab), page);
    page::put_word(words::brake_word(states.brake), page);
    put_national(states.national, page);
    words::put_traction(states.traction, page);
}

// The answer to a call and the record after it, made on a page and copied from it.
#[tactic(auto, unfolding(crate::specs::Lines::line_of))]
pub fn put_line(updated: Updated, line: &mut Sheet<'_>)
    ensures { line.new ≡ put_on (line_of (updating_of updated)) line.old }
{
    let mut bytes = [0u8; 328];
    let mut page = Sheet::on(&mut bytes, 0);
    put_answer(updated.answer, &mut page);
    put_misses(updated.signals.misses, &mut page);
    put_states(updated.signals.states, &mut page);
    page::put_byte(LINE_FEED, &mut page);
    let end = page.at;
    line.put_words(&bytes[..end]);
}

// What is said where the input ends inside a call; of a list `desk_output` says so. One function for both would be `Sheet::put_words`.
pub const SHORT_CALL: &[u8] = b"short call\n";

#[tactic(auto, unfolding(crate::specs::Lines::short_call_line))]
pub fn put_short(line: &mut Sheet<'_>)
    ensures { line.new ≡ put_on short_call_line line.old }
{
    line.put_words(SHORT_CALL);
}
