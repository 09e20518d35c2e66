// Step numbers go round: 8,191 is followed by 0.
ghost use Rattle.std.specs.Prelude.{◌≡◌};
ghost use Rattle.wire.specs.Steps.{gap_of};

// How many step numbers there are.
pub const STEPS: u16 = 8192;

// The new step number less the last one, around 8,192. The subtraction wraps at 65,536, which is eight times 8,192, so the
// remainder does not notice it.
#[tactic(auto, unfolding(crate::specs::Steps::gap_of))]
pub fn gap(new: u16, last: u16) -> u16
    ensures { result ≡ gap_of new last }
{
    new.wrapping_sub(last) % STEPS
}
