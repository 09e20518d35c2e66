// The lines of a listing but for those of tables, put on a sheet: the header, the line of a refused telegram, and the end.
#![tactic(auto)]

ghost use Rattle.std.specs.Prelude.{◌≡◌};
ghost use Rattle.text.specs.Putting.{put_on};
ghost use Rattle.listing_lines.specs.Lines.{header_line, refused_line, end_line};

use text::{LINE_FEED, Sheet};

// The first line. The 1 names this form of listing.
pub const HEADER: [u8; 13] = *b"conditions 1\n";

// The word that the line of a table begins with, which `listing_tables` puts.
pub const TABLE: [u8; 6] = *b"table ";

pub const REFUSED: [u8; 8] = *b"refused ";

const END: [u8; 4] = *b"end ";

#[tactic(auto, unfolding(crate::specs::Lines::header_line))]
pub fn put_header(listing: &mut Sheet<'_>)
    ensures { listing.new ≡ put_on header_line listing.old }
{
    listing.put_words(&HEADER);
}

// `refused N`. It takes every number, as an answer of the listener has it: a `Refusal` would ask more of a caller.
#[tactic(auto, unfolding(crate::specs::Lines::refused_line), using(text::proofs::Putting::put_next))]
pub fn put_refused(number: u8, listing: &mut Sheet<'_>)
    ensures { listing.new ≡ put_on (refused_line number) listing.old }
{
    listing.put_words(&REFUSED);
    listing_words::put_number(number as u64, LINE_FEED, listing);
}

// `end T`: how many tables were taken.
#[tactic(auto, unfolding(crate::specs::Lines::end_line), using(text::proofs::Putting::put_next))]
pub fn put_end(tables: u64, listing: &mut Sheet<'_>)
    ensures { listing.new ≡ put_on (end_line tables) listing.old }
{
    listing.put_words(&END);
    listing_words::put_number(tables, LINE_FEED, listing);
}
