// How the reading of an input of lists or calls ended, each after its length.
ghost use Rattle.std.specs.Prelude.{◌≡◌};
ghost use Rattle.outcomes.specs.Ends.{end_by, ends_inside};

use crate::outcomes::State;

// Behind a whole one; inside one; or because a read failed.
#[derive(Clone, Copy, Debug, PartialEq, Eq)]
pub enum End {
    Whole,
    Short,
    Failed,
}

// By what the last read came to, and whether some bytes of a list or call had come.
pub fn end_of(state: State, begun: bool) -> End
    ensures { result ≡ end_by state begun }
{
    match state {
        State::Ended if begun => End::Short,
        State::Ended => End::Whole,
        State::More | State::Again | State::Failed => End::Failed,
    }
}

// Whether the input has ended inside a list or call, so that this is said.
pub fn is_short(end: End) -> bool
    ensures { result ≡ ends_inside end }
{
    matches!(end, End::Short)
}
