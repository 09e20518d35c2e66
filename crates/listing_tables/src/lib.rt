// What a listing says of each telegram that was heard: the table that it completed, its refusal, or nothing. The picture stands in the
// lent memory of the listener.
#![tactic(auto)]

mod entries;

ghost use Rattle.std.specs.Prelude.{◌≡◌, ◌++◌};
ghost use Rattle.text.specs.Putting.{put_on};
ghost use Rattle.page.specs.Pages.{room_for, PagedOn};
ghost use Rattle.memory.specs.Memory.{picture_in, marks_in};
ghost use Rattle.listener.specs.Answers.{told_of};
ghost use Rattle.listing_lines.specs.Lines.{table_line};
ghost use Rattle.listing_tables.specs.Tables.{picture_lines, refusal_lines, answer_lines, tables_of};

use condition::SLOTS;
use listener::Answer;
use text::Sheet;

// A line for each occupied slot of the picture, on a page.
fn put_picture(memory: &[u8; 310], page: &mut Sheet<'_>)
    requires { room_for 740 page.old }
    ensures { PagedOn 740 (picture_lines (picture_in memory.now) (marks_in memory.now)) page.old page.new }
{
    for i in 0..SLOTS {
        let slot = memory::shown_slot(memory, i);
        let carried = memory::is_marked(memory, i);
        entries::put_entry(i, slot, carried, page);
    }
}

// The line of a table and those of its slots, made on a page and copied from it.
fn put_table(step: u16, count: u8, gap: u16, memory: &[u8; 310], listing: &mut Sheet<'_>)
    ensures { listing.new ≡ put_on (table_line step count gap ++ picture_lines (picture_in memory.now) (marks_in memory.now)) listing.old }
{
    let mut bytes = [0u8; 768];
    let mut page = Sheet::on(&mut bytes, 0);
    entries::put_table_line(step, count, gap, &mut page);
    put_picture(memory, &mut page);
    let end = page.at;
    listing.put_words(&bytes[..end]);
}

// A line for a refusal, and none for any other answer.
#[tactic(auto, using(text::proofs::Putting::put_none))]
fn put_refusal(answer: Answer, listing: &mut Sheet<'_>)
    ensures { listing.new ≡ put_on (refusal_lines (told_of answer)) listing.old }
{
    let Answer::Refused(number) = answer else {
        return;
    };
    listing_lines::put_refused(number, listing);
}

// The lines of an answer, with the memory of the listener that gave it. Document 01 wants it taken apart by `let else`.
pub fn put_heard(answer: Answer, memory: &[u8; 310], listing: &mut Sheet<'_>)
    ensures { listing.new ≡ put_on (answer_lines (told_of answer) (picture_in memory.now) (marks_in memory.now)) listing.old }
{
    let Answer::Taken { step, count, gap } = answer else {
        return put_refusal(answer, listing);
    };
    put_table(step, count, gap, memory, listing);
}

// How many tables an answer takes: one or none.
pub fn tables_of(answer: Answer) -> u64
    ensures { result ≡ tables_of (told_of answer) }
{
    matches!(answer, Answer::Taken { .. }) as u64
}
