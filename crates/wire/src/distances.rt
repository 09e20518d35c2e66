// A distance: metres in two's complement, or no value.
ghost use Rattle.std.specs.Prelude.{◌≡◌};
ghost use Rattle.wire.specs.Distances.{distance_of};

// The word that means no value. 7FFFh and 8001h, the words beside it, are ordinary distances.
pub const NO_VALUE: u16 = 0x8000;

// What a word says: no value, so many metres (0 to 32,767), or so many metres below zero (1 to 32,767). Three cases, and no Option of a signed
// number: the pages say a distance by them (InRange, distance_word), without signs.
#[derive(Clone, Copy)]
pub enum Distance {
    Missing,
    Metres(u16),
    Below(u16),
}

#[tactic(auto, unfolding(crate::specs::Distances::distance_of))]
pub fn distance_of(word: u16) -> Distance
    ensures { result ≡ distance_of word }
{
    if word == NO_VALUE {
        return Distance::Missing;
    }
    if word < NO_VALUE {
        return Distance::Metres(word);
    }
    Distance::Below(u16::MAX - word + 1)
}
