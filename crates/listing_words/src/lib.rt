// The words of a listing: the two marks of a condition, which are compared and written, and a number put on a sheet.
#![tactic(auto)]

ghost use Rattle.std.specs.Prelude.{◌≡◌};
ghost use Rattle.text.specs.Putting.{put_on};
ghost use Rattle.listing_words.specs.Words.{number_then};

use text::Sheet;

pub const NEW: [u8; 3] = *b"new";

pub const CARRIED: [u8; 7] = *b"carried";

// A number in decimal, and one byte after it.
#[tactic(auto, using(text::proofs::Putting::put_next))]
pub fn put_number(number: u64, after: u8, line: &mut Sheet<'_>)
    ensures { line.new ≡ put_on (number_then number after) line.old }
{
    line.put_decimal(number);
    line.put_byte(after);
}
