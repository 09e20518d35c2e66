// Reads the fixed words of a listing: a text is compared with the byte strings that the listing is written with.
#![tactic(auto)]

ghost use Rattle.std.specs.Prelude.{◌≡◌};
ghost use Rattle.listing_reader.specs.Fixed.{word_of, code_of};

use listing_lines::{HEADER, REFUSED};
use listing_words::{CARRIED, NEW};

// Which of the fixed byte strings a text is, each under the number that other languages know it by, 0 where it is none of them.
#[derive(Clone, Copy, Debug, PartialEq, Eq)]
pub enum Word {
    Other = 0,
    Header = 1,
    New = 2,
    Carried = 3,
    Refused = 4,
}

impl From<Word> for u8 {
    ghost from_gives = { λ word number. number ≡ code_of word };

    fn from(word: Word) -> u8 {
        word as u8
    }
}

// The header with its line feed, `new`, `carried`, `refused` with its blank, or none of them.
#[tactic(auto, unfolding(crate::specs::Fixed::word_of, kit::specs::Ladder::ladder, listing_lines::specs::Lines::header_line))]
pub fn word_of(text: &[u8]) -> Word
    ensures { result ≡ word_of text.now }
{
    if same_text::is_same(text, &HEADER) {
        Word::Header
    } else if same_text::is_same(text, &NEW) {
        Word::New
    } else if same_text::is_same(text, &CARRIED) {
        Word::Carried
    } else if same_text::is_same(text, &REFUSED) {
        Word::Refused
    } else {
        Word::Other
    }
}

// The number of a word, for other languages.
pub fn code_of(word: Word) -> u8
    ensures { result ≡ code_of word }
{
    u8::from(word)
}
