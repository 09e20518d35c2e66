// The step last taken: whether a telegram is of that step, and the gap from it to another.
#![tactic(auto)]

ghost use Rattle.std.specs.Prelude.{◌≡◌};
ghost use Rattle.std.proofs.lemmas.List.Edits.{sets};
ghost use Rattle.memory.specs.Memory.{last_from};
ghost use Rattle.last_step.specs.LastSteps.{is_last, gap_from};
ghost use Rattle.last_step.specs.Lent.{last_in, last_bytes, with_last};

// Where it stands in the lent memory of a listener.
const LAST: usize = 160;

// Whether a step number is that of the step last taken. That there is none yet is None, and not that the step number is 0.
pub fn is_last(last: Option<u16>, step: u16) -> bool
    ensures { result ≡ is_last last step }
{
    last == Some(step)
}

// The gap from the step last taken, 0 where there is none: that is its promise, and a table says its gap as a number.
pub fn gap_from(last: Option<u16>, step: u16) -> u16
    ensures { result ≡ gap_from last step }
{
    last.map_or(0, |taken| wire::gap(step, taken))
}

// The step last taken, in the lent memory of a listener.
#[tactic(auto, unfolding(crate::specs::Lent::last_in))]
pub fn last_in(memory: &[u8; 310]) -> Option<u16>
    ensures { result ≡ last_in memory.now }
{
    if memory[LAST] == 0 {
        None
    } else {
        Some(wire::word_at(memory, LAST + 1))
    }
}

// The step last taken, or none, put into the memory.
pub fn put_last(memory: &mut [u8; 310], last: Option<u16>)
    ensures { memory.new ≡ sets memory.old last_from (last_bytes last) }
{
    let [high, low] = last.unwrap_or(0).to_be_bytes();
    memory[LAST..LAST + 3].copy_from_slice(&[u8::from(last.is_some()), high, low]);
}

// A step is the one last taken from now on.
#[tactic(auto, unfolding(crate::specs::Lent::with_last))]
pub fn take_step(memory: &mut [u8; 310], step: u16)
    ensures { memory.new ≡ with_last memory.old step }
{
    put_last(memory, Some(step));
}
