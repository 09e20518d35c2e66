// A telegram from the train: any bytes of any length to its refusal (10, 16, 17) or to the states of the signals that it has.
#![tactic(auto)]

mod states;

ghost use Rattle.std.specs.Prelude.{◌≡◌};
ghost use Rattle.train_telegram.specs.Readings.{train_reading_in, train_reading};

pub use states::States;
use wire::Refusal;

// What a telegram of any bytes and any length says, or its refusal.
#[tactic(auto, using(crate::proofs::Refusals::reading_refused_by, crate::proofs::Refusals::reading_accepted_by))]
pub fn read(telegram: &[u8]) -> Result<States, Refusal>
    ensures { train_reading_in result ≡ train_reading telegram.now }
{
    train_codes::refusal_of(telegram)?;
    Ok(states::states_of(telegram))
}
