// Whether a text is a given one, byte by byte.
#![tactic(auto)]

ghost use Rattle.std.specs.Prelude.{◌≡◌};
ghost use Rattle.same_text.specs.Same.{is_same_text};

#[tactic(auto, using(crate::proofs::Bytes::same_told))]
pub fn is_same(text: &[u8], words: &[u8]) -> bool
    ensures { result ≡ is_same_text text.now words.now }
{
    text == words
}
