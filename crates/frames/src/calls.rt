// The calls of an input, by an iterator.
use crate::{LENGTH, first_size};

// One call: its length as it stands there, and its bytes. A call with no telegram is told by the length alone, and by no Option of the
// bytes: `calls_of`, by which runs are defined, gives pairs of the two.
#[derive(Clone, Copy)]
pub struct WholeCall<'a> {
    pub length: u16,
    pub bytes: &'a [u8],
}

// The input ends inside a call.
#[derive(Clone, Copy)]
pub struct Short;

// What is left of an input. It gives call after call, and at last that the input is short, where it ends inside one. Nothing follows the
// length `bare`, where one is bare.
#[derive(Clone, Copy)]
pub struct Calls<'a> {
    pub rest: &'a [u8],
    pub bare: Option<u16>,
}

impl<'a> Iterator for Calls<'a> {
    ghost use Rattle.std.specs.Prelude.{length};
    ghost use Rattle.std.specs.Iterator.{at_most};
    ghost use Rattle.frames.specs.Calls.{GivesCall};

    type Item = Result<WholeCall<'a>, Short>;

    ghost next_gives = { GivesCall };

    ghost remaining = { λ calls. at_most (length calls.rest.now) };

    #[tactic(auto, using(crate::proofs::Splitting::call_bounds))]
    fn next(&mut self) -> Option<Result<WholeCall<'a>, Short>> {
        if self.rest.is_empty() {
            return None;
        }
        let Some(size) = first_size(self.rest, self.bare) else {
            self.rest = &self.rest[..0];
            return Some(Err(Short));
        };
        let call = WholeCall {
            length: wire::word_at(self.rest, 0),
            bytes: &self.rest[LENGTH..size],
        };
        self.rest = &self.rest[size..];
        Some(Ok(call))
    }
}
