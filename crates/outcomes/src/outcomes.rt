// What a read or a write came to, and what follows. The system answers how many bytes it moved, or that the call failed, and then whether
// that was because a signal came before a byte was moved.
ghost use Rattle.std.specs.Prelude.{◌≡◌};
ghost use Rattle.outcomes.specs.Outcomes.{after_read, after_write, is_again, is_over, is_failed, is_ended};

// Go on; do it again; the input has ended; it failed. Own cases and no Result: `is_again`, `is_ended`, `is_failed` and `is_over` answer of
// each, and what is put at the end is promised of each, too.
#[derive(Clone, Copy, Debug, PartialEq, Eq)]
pub enum State {
    More,
    Again,
    Ended,
    Failed,
}

// How many bytes had come when the input ended or a read failed, and which of the two it was.
#[derive(Clone, Copy)]
pub struct Moved {
    pub count: usize,
    pub state: State,
}

// What follows a read that moved so many bytes. Flags and no Result, here and below: that would leave out calls that moved some and failed,
// and of those, too, it is promised what follows.
pub fn read_of(count: usize, failed: bool, interrupted: bool) -> State
    ensures { result ≡ after_read count failed interrupted }
{
    if 0 < count {
        State::More
    } else if failed && interrupted {
        State::Again
    } else if failed {
        State::Failed
    } else {
        State::Ended
    }
}

// What follows a write of at least one byte. One that takes nothing has failed.
pub fn write_of(count: usize, failed: bool, interrupted: bool) -> State
    ensures { result ≡ after_write count failed interrupted }
{
    if 0 < count {
        State::More
    } else if failed && interrupted {
        State::Again
    } else {
        State::Failed
    }
}

// Whether the call is made again.
pub fn is_again(state: State) -> bool
    ensures { result ≡ is_again state }
{
    matches!(state, State::Again)
}

// Whether it is told, and ends the program.
pub fn is_failed(state: State) -> bool
    ensures { result ≡ is_failed state }
{
    matches!(state, State::Failed)
}

// Whether the input has ended, so that what stands at the end is written.
pub fn is_ended(state: State) -> bool
    ensures { result ≡ is_ended state }
{
    matches!(state, State::Ended)
}

// Whether nothing more is read.
pub fn is_over(state: State) -> bool
    ensures { result ≡ is_over state }
{
    matches!(state, State::Ended | State::Failed)
}
