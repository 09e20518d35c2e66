// The words for the states of signals on a page, each with a blank before it. Each stands in a call of its own, so that its bytes are
// packed when this is compiled; a `Display` would write them through a formatter, byte by byte. Three functions of one shape, and not
// one: it would take the words of a state from a trait, whose three impls are what stands here.
ghost use Rattle.std.specs.Prelude.{◌≡◌};
ghost use Rattle.page.specs.Pages.{room_for, PagedOn};
ghost use Rattle.page.specs.Words.{bytes_of_word};
ghost use Rattle.state_words.specs.Words.{cab_word, brake_word, isolation_word, traction_word};

use page::Word;
use text::{BLANK, Sheet};
use train_codes::{Brake, Cab, Isolation, Traction};

#[tactic(auto, unfolding(page::specs::Words::bytes_of_word, page::specs::Words::packed_word, page::specs::Packed::number_made, page::specs::Packed::low_bytes))]
pub fn cab_word(cab: Cab) -> Word
    ensures { bytes_of_word result ≡ cab_word cab }
{
    match cab {
        Cab::Silent => page::word_of(b" silent"),
        Cab::None => page::word_of(b" none"),
        Cab::A => page::word_of(b" A"),
        Cab::B => page::word_of(b" B"),
        Cab::Invalid => page::word_of(b" invalid"),
    }
}

#[tactic(auto, unfolding(page::specs::Words::bytes_of_word, page::specs::Words::packed_word, page::specs::Packed::number_made, page::specs::Packed::low_bytes))]
pub fn brake_word(brake: Brake) -> Word
    ensures { bytes_of_word result ≡ brake_word brake }
{
    match brake {
        Brake::Silent => page::word_of(b" silent"),
        Brake::PassengerInP => page::word_of(b" passenger-P"),
        Brake::FreightInP => page::word_of(b" freight-P"),
        Brake::FreightInG => page::word_of(b" freight-G"),
        Brake::Unknown => page::word_of(b" unknown"),
        Brake::Invalid => page::word_of(b" invalid"),
    }
}

#[tactic(auto, unfolding(page::specs::Words::bytes_of_word, page::specs::Words::packed_word, page::specs::Packed::number_made, page::specs::Packed::low_bytes))]
pub fn isolation_word(isolation: Isolation) -> Word
    ensures { bytes_of_word result ≡ isolation_word isolation }
{
    match isolation {
        Isolation::Silent => page::word_of(b" silent"),
        Isolation::Isolated => page::word_of(b" isolated"),
        Isolation::NotIsolated => page::word_of(b" not-isolated"),
        Isolation::Invalid => page::word_of(b" invalid"),
    }
}

pub fn put_traction(traction: Traction, page: &mut Sheet<'_>)
    requires { room_for 16 page.old }
    ensures { PagedOn 16 (traction_word traction) page.old page.new }
{
    match traction {
        Traction::Silent => page::put_short_text(b" silent", page),
        Traction::Supported(systems) => {
            page::put_byte(BLANK, page);
            page::put_hexadecimal(systems, page);
        }
    }
}
