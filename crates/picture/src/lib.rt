// What is judged of a whole set in the lent memory of a listener: how many conditions it has, and whether a number stands in it twice.
#![tactic(auto)]

ghost use Rattle.std.specs.Prelude.{◌≡◌};
ghost use Rattle.memory.specs.Memory.{set_in};
ghost use Rattle.picture.specs.Pictures.{count_of, clashes};

use condition::SLOTS;
use memory::{ByteSet, SET, SLOT};

// How many conditions the set has.
pub fn count_of(memory: &[u8; 310]) -> u8
    ensures { result ≡ count_of (set_in memory.now) }
{
    let mut count = 0;
    for i in 0..SLOTS {
        count += u8::from(memory[SET + SLOT * i + 1] != 0);
    }
    count
}

// Whether a number stands in the set twice.
pub fn clashes(memory: &[u8; 310]) -> bool
    ensures { result ≡ clashes (set_in memory.now) }
{
    let mut seen = ByteSet::empty();
    for i in 0..SLOTS {
        let number = memory[SET + SLOT * i];
        if memory[SET + SLOT * i + 1] != 0 {
            if seen.contains(number) {
                return true;
            }
            seen.insert(number);
        }
    }
    false
}
