// The record of signals from the train: what each call makes of it, a call with a telegram and one without.
#![tactic(auto)]

ghost use Rattle.std.specs.Prelude.{◌≡◌, option_copied};
ghost use Rattle.signals.specs.Answers.{updating_of};
ghost use Rattle.signals.specs.Signals.{fresh_signals, missed_by, update_of, update_by};

use train_telegram::States;

// At this many misses in a row every signal is silent, and the count stops.
const MISSES_MOST: u8 = 3;

// The states of all signals, and how many calls in a row have missed.
#[derive(Clone, Copy)]
pub struct Signals {
    pub states: States,
    pub misses: u8,
}

// What is answered to a call: accepted, missed (it had no telegram), or refused under the number of document 01. The refusal is a number
// of any size, and no `Refusal`, since `put_line` of signals_output writes every number.
#[derive(Clone, Copy)]
pub enum Answer {
    Accepted,
    Missed,
    Refused(u8),
}

// The answer, and the next record.
#[derive(Clone, Copy)]
pub struct Updated {
    pub answer: Answer,
    pub signals: Signals,
}

// The record after a miss.
#[tactic(auto, unfolding(crate::specs::Signals::missed_by))]
fn missed(signals: Signals) -> Signals
    ensures { result ≡ missed_by signals }
{
    if signals.misses < MISSES_MOST - 1 {
        Signals {
            misses: signals.misses + 1,
            ..signals
        }
    } else {
        Signals {
            states: States::silent(),
            misses: MISSES_MOST,
        }
    }
}

impl Signals {
    // Silent, and no miss yet.
    #[tactic(auto, unfolding(crate::specs::Signals::fresh_signals))]
    pub fn fresh() -> Self
        ensures { result ≡ fresh_signals }
    {
        Signals {
            states: States::silent(),
            misses: 0,
        }
    }

    // One call: with a telegram of any bytes and any length, or with none.
    #[tactic(auto, unfolding(crate::specs::Signals::update_of))]
    pub fn update_by(self, telegram: Option<&[u8]>) -> Updated
        ensures { updating_of result ≡ update_by self (option_copied telegram.entry) }
    {
        let (answer, signals) = match telegram.map(train_telegram::read) {
            None => (Answer::Missed, missed(self)),
            Some(Err(refusal)) => (Answer::Refused(refusal.into()), missed(self)),
            Some(Ok(states)) => (Answer::Accepted, Signals { states, misses: 0 }),
        };
        Updated { answer, signals }
    }

    // The same for a host that says in a flag whether a telegram came. Where none is present the bytes are not looked at: that is promised
    // of them, and an Option has none.
    #[tactic(auto, unfolding(crate::specs::Signals::update_of))]
    pub fn update(self, present: bool, telegram: &[u8]) -> Updated
        ensures { updating_of result ≡ update_of self present telegram.now }
    {
        self.update_by(present.then_some(telegram))
    }
}
