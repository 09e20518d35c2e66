// The line of a condition and the line of a table on a page. A word is put with the blank after it.
ghost use Rattle.std.specs.Prelude.{◌≡◌, cond, [], ◌∷◌, ◌++◌, ltb, ◌-◌, ◌<◌};
ghost use Rattle.page.specs.Pages.{room_for, PagedOn};
ghost use Rattle.wire.specs.Distances.{no_value};
ghost use Rattle.text.specs.Words.{blank};
ghost use Rattle.listing_words.specs.Words.{line_feed, minus, number_then, distance_text, mark_word};
ghost use Rattle.listing_seconds.specs.Seconds.{stroke, second_word};
ghost use Rattle.listing_entries.specs.Entries.{entry_line};
ghost use Rattle.listing_lines.specs.Lines.{table_line};

use condition::{Body, Slot};
use listing_lines::TABLE;
use listing_words::{CARRIED, NEW};
use text::{BLANK, LINE_FEED, Sheet};
use wire::NO_VALUE;

const STROKE: u8 = b'/';

const MINUS: u8 = b'-';

// A distance without its sign.
fn metres(word: u16) -> u16
    ensures { result ≡ cond (ltb word no_value) word (0x10000 - word) }
{
    word.cast_signed().unsigned_abs()
}

// "- ", for what has no value.
fn put_none(page: &mut Sheet<'_>)
    requires { room_for 8 page.old }
    ensures { PagedOn 2 (minus ∷ blank ∷ []) page.old page.new }
{
    page::put_short_text(b"- ", page);
}

// A distance in metres, or `-` where it has no value.
#[tactic(auto, using(crate::proofs::Words::distance_none))]
fn put_distance(word: u16, page: &mut Sheet<'_>)
    requires { room_for 9 page.old }
    ensures { PagedOn 7 (distance_text word ++ (blank ∷ [])) page.old page.new }
{
    if word == NO_VALUE {
        put_none(page);
    } else {
        page::put_byte_if(MINUS, word >= NO_VALUE, page);
        page::put_number(metres(word), BLANK, page);
    }
}

// `voltage/country`.
fn put_system(country: u16, voltage: u8, page: &mut Sheet<'_>)
    requires { room_for 12 page.old }
    ensures { PagedOn 10 (number_then voltage stroke ++ number_then country blank) page.old page.new }
{
    page::put_number(voltage as u16, STROKE, page);
    page::put_number(country, BLANK, page);
}

// What the second word of a condition says; `-` where the change distance has no value.
fn put_second(body: Body, page: &mut Sheet<'_>)
    requires { room_for 12 page.old }
    ensures { PagedOn 10 (second_word body ++ (blank ∷ [])) page.old page.new }
{
    match body {
        Body::Empty => page::put_byte(BLANK, page),
        Body::Area { exit, .. } => put_distance(exit, page),
        Body::Traction { change, .. } | Body::Current { change, .. } if change == NO_VALUE =>
            put_none(page),
        Body::Traction {
            country,
            voltage,
            ..
        } => put_system(country, voltage, page),
        Body::Current { limit, .. } => page::put_number(limit, BLANK, page),
    }
}

// `carried` or `new`, and the end of the line.
fn put_mark(carried: bool, page: &mut Sheet<'_>)
    requires { room_for 8 page.old }
    ensures { PagedOn 8 (mark_word carried ++ (line_feed ∷ [])) page.old page.new }
{
    // each word stands in a call of its own, so that its bytes are packed when this is compiled
    if carried {
        page::put_short_text(&CARRIED, page);
    } else {
        page::put_short_text(&NEW, page);
    }
    page::put_byte(LINE_FEED, page);
}

// Slot, number and type.
fn put_numbers(place: u8, number: u8, kind: u8, page: &mut Sheet<'_>)
    requires { room_for 16 page.old }
    ensures { PagedOn 12 (number_then place blank ++ (number_then number blank ++ number_then kind blank)) page.old page.new }
{
    page::put_short_number(place, BLANK, page);
    page::put_number(number as u16, BLANK, page);
    page::put_short_number(kind, BLANK, page);
}

// What the first and the second word say.
fn put_both(first: u16, body: Body, page: &mut Sheet<'_>)
    requires { room_for 19 page.old }
    ensures { PagedOn 17 (distance_text first ++ ((blank ∷ []) ++ (second_word body ++ (blank ∷ [])))) page.old page.new }
{
    put_distance(first, page);
    put_second(body, page);
}

// The line of a slot, where it is occupied.
pub fn put_entry(place: usize, slot: Slot, carried: bool, page: &mut Sheet<'_>)
    requires { (place < 256) × room_for 37 page.old }
    ensures { PagedOn 37 (entry_line place slot carried) page.old page.new }
{
    if !slot.is_occupied() {
        return;
    }
    let coded = condition::coded_of(slot);
    // `as`, since the place is below 256: the error of a `TryFrom` could not come
    put_numbers(place as u8, slot.number, coded.kind, page);
    put_both(coded.first, slot.body, page);
    put_mark(carried, page);
}

// `table S K G`: the step number, how many conditions the table has, and the gap.
pub fn put_table_line(step: u16, count: u8, gap: u16, page: &mut Sheet<'_>)
    requires { room_for 24 page.old }
    ensures { PagedOn 22 (table_line step count gap) page.old page.new }
{
    page::put_short_text(&TABLE, page);
    page::put_number(step, BLANK, page);
    page::put_number(count as u16, BLANK, page);
    page::put_number(gap, LINE_FEED, page);
}
