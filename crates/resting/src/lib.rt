// Which numbers rest: those that ended lately, each with the step in which it did. How many steps a number rests is a figure that
// the desk hands in.
#![tactic(auto)]

ghost use Rattle.std.specs.Prelude.{◌≡◌};
ghost use Rattle.resting.specs.Rests.{none_ended, rests_by, rests_in};

// How many numbers can have ended and still be kept.
pub const KEPT: usize = 160;

// A number that an order had when it ended, and the step in which it did. Number 0: none. It is no Option, since `none_ended` and
// `ended_entry`, of which the theorems on the desk speak, say so of the number itself.
#[derive(Clone, Copy)]
pub struct Ended {
    pub number: u8,
    pub step: u16,
}

impl Ended {
    pub fn none() -> Self
        ensures { result ≡ none_ended }
    {
        Ended { number: 0, step: 0 }
    }
}

// What says which numbers rest in a step: those that ended, for how many steps a number rests, and the step.
#[derive(Clone, Copy)]
pub struct AtRest {
    pub ended: [Ended; 160],
    pub rest: u16,
    pub step: u16,
}

impl AtRest {
    // Whether a number rests because of this entry.
    #[tactic(auto, unfolding(crate::specs::Rests::rests_by))]
    fn rests_by(&self, entry: Ended, number: u8) -> bool
        ensures { result ≡ rests_by self.now.rest self.now.step number entry }
    {
        entry.number == number && wire::gap(self.step, entry.step) < self.rest
    }

    // Whether a number rests. All entries are looked at: a machine judges several at once, and there is no branch to guess wrong.
    pub fn is_resting(&self, number: u8) -> bool
        ensures { result ≡ rests_in self.now number }
    {
        let mut rests = false;
        for entry in &self.ended {
            rests |= self.rests_by(*entry, number);
        }
        rests
    }
}
