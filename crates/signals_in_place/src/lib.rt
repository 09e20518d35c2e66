// The record of signals belongs to the host, and each call updates it where it is.
#![tactic(auto)]

ghost use Rattle.std.specs.Prelude.{◌≡◌, option_copied};
ghost use Rattle.signals.specs.Answers.{noted_of, updating_of};
ghost use Rattle.signals.specs.Signals.{update_of, update_by};

use signals::{Answer, Signals, Updated};

// One call, with a telegram or with none: the answer, and the lent record is the next one.
pub fn update_by(held: &mut Signals, telegram: Option<&[u8]>) -> Answer
    ensures { (noted_of result ≡ (update_by held.old (option_copied telegram.entry)).noted)
        × (held.new ≡ (update_by held.old (option_copied telegram.entry)).signals) }
{
    let next = held.update_by(telegram);
    *held = next.signals;
    next.answer
}

// The same for a host that has the record in a variable of its own: it is lent for one call. Programs use this one.
pub fn lend_and_update_by(signals: Signals, telegram: Option<&[u8]>) -> Updated
    ensures { updating_of result ≡ update_by signals (option_copied telegram.entry) }
{
    let mut held = signals;
    let answer = update_by(&mut held, telegram);
    Updated {
        answer,
        signals: held,
    }
}

// The two for a host that says in a flag whether a telegram came. Where none is present the bytes are not looked at: that is promised of
// them, and an Option has none.
#[tactic(auto, unfolding(signals::specs::Signals::update_of))]
pub fn update(held: &mut Signals, present: bool, telegram: &[u8]) -> Answer
    ensures { (noted_of result ≡ (update_of held.old present telegram.now).noted)
        × (held.new ≡ (update_of held.old present telegram.now).signals) }
{
    update_by(held, present.then_some(telegram))
}

#[tactic(auto, unfolding(signals::specs::Signals::update_of))]
pub fn lend_and_update(signals: Signals, present: bool, telegram: &[u8]) -> Updated
    ensures { updating_of result ≡ update_of signals present telegram.now }
{
    lend_and_update_by(signals, present.then_some(telegram))
}
