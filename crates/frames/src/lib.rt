// Calls one after another, each a length in two bytes, high first, and so many bytes. One length may be bare: nothing follows it.
#![tactic(auto)]

mod calls;

ghost use Rattle.std.specs.Prelude.{◌≡◌};
ghost use Rattle.frames.specs.Frames.{bare_in, follows, size_given, whole_size};

pub use calls::{Calls, Short, WholeCall};

// How many bytes a length takes.
pub const LENGTH: usize = 2;

// The length of a call with no telegram. It is bare.
pub const NO_TELEGRAM: u16 = 0xFFFF;

// Where no length is to be bare: more than two bytes can say.
pub const NO_BARE: u32 = 0x10000;

// How many bytes follow a length.
#[tactic(auto, unfolding(crate::specs::Frames::follows))]
fn follows(word: u16, bare: u32) -> u16
    ensures { result ≡ follows bare word }
{
    if word as u32 == bare {
        return 0;
    }
    word
}

// How many bytes the first call takes, its length among them; 0 where the input ends inside it. Nothing follows the length `bare`;
// where that is more than two bytes can say, every length has its bytes. It takes every number and answers one, since that is promised; what
// stands on this crate goes by `first_size`.
#[tactic(auto, unfolding(crate::specs::Frames::whole_size, crate::specs::Frames::is_whole_frame, crate::specs::Frames::size_of))]
pub fn call_size(input: &[u8], bare: u32) -> usize
    ensures { result ≡ whole_size bare input.now }
{
    let size = LENGTH + follows(wire::word_at(input, 0), bare) as usize;
    if size <= input.len() {
        return size;
    }
    0
}

// The same, none where the input ends inside the first call. Nothing follows the length `bare`, where one is bare.
pub fn first_size(input: &[u8], bare: Option<u16>) -> Option<usize>
    ensures { result ≡ size_given (whole_size (bare_in bare) input.now) }
{
    let size = call_size(input, bare.map_or(NO_BARE, u32::from));
    (size != 0).then_some(size)
}
