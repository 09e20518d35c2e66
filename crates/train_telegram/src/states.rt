// The states of all signals, by the codes that they have in a telegram.
ghost use Rattle.std.specs.Prelude.{◌≡◌};
ghost use Rattle.train_telegram.specs.States.{national_of, silent, states_of};

use std::array;
use train_codes::{Brake, Cab, Isolation, Traction};

// How many national systems there are.
const SYSTEMS: usize = 16;

// The states of all signals; system 1 stands first.
#[derive(Clone, Copy)]
pub struct States {
    pub cab: Cab,
    pub brake: Brake,
    pub national: [Isolation; SYSTEMS],
    pub traction: Traction,
}

impl States {
    // Every signal silent.
    #[tactic(auto, unfolding(crate::specs::States::silent))]
    pub fn silent() -> Self
        ensures { result ≡ silent }
    {
        States {
            cab: Cab::Silent,
            brake: Brake::Silent,
            national: [Isolation::Silent; SYSTEMS],
            traction: Traction::Silent,
        }
    }
}

// The sixteen systems, from the lowest bits of the two words up.
fn national_of(isolated: u16, inverse: u16) -> [Isolation; SYSTEMS]
    ensures { result ≡ national_of isolated inverse }
{
    array::from_fn(|i| train_codes::isolation_of((isolated >> i) % 2 == 1, (inverse >> i) % 2 == 1))
}

// The states that a telegram says by its codes.
#[tactic(auto, unfolding(crate::specs::States::states_of))]
pub fn states_of(telegram: &[u8]) -> States
    ensures { result ≡ states_of telegram.now }
{
    let cabs = wire::byte_at(telegram, 1);
    States {
        cab: train_codes::cab_of(cabs / 2 % 2 == 1, cabs % 2 == 1),
        brake: train_codes::brake_of(wire::byte_at(telegram, 2) % 8),
        national: national_of(wire::word_at(telegram, 3), wire::word_at(telegram, 5)),
        traction: Traction::Supported(wire::long_at(telegram, 7)),
    }
}
