// The desk: twenty places, the numbers that ended lately, the last number given and the step number. Each accepted list makes one
// step: orders that are absent leave (crate leaving), new ones arrive (crate arriving).
#![tactic(auto)]

ghost use Rattle.std.specs.Prelude.{◌≡◌};
ghost use Rattle.desk.specs.Desks.{base_rest, fresh_desk, answer_in, accept_of, Made};

use arriving::Seats;
use leaving::Remains;
use places::Place;
use resting::{AtRest, Ended};
use wire::Refusal;

// The ended numbers stand by the step in which they ended, the newest first, and within a step by slot. Its arrays are of a fixed size,
// since there is no heap. The last number given is 0 where none was, since `number_after` counts on from it.
#[derive(Clone, Copy)]
pub struct Desk {
    pub places: [Place; 20],
    pub ended: [Ended; 160],
    pub last: u8,
    pub step: u16,
}

// Beside a refusal stands the desk as it was, so that this is no Result of a desk: `accept_of` says which desk comes of a refusal, too.
#[derive(Clone, Copy)]
pub struct Answer {
    pub verdict: Result<(), Refusal>,
    pub desk: Desk,
}

impl Desk {
    // How many slots the table has.
    pub const SLOTS: usize = condition::SLOTS;

    // For how many steps an ended number is not given, the one in which it ended among them.
    pub const REST: u16 = 8;

    // How many step numbers there are.
    pub const STEPS: u16 = wire::STEPS;

    // A desk at step 0 with all slots empty.
    #[tactic(auto, unfolding(crate::specs::Desks::fresh_with))]
    pub fn fresh() -> Self
        ensures { result ≡ fresh_desk }
    {
        Desk {
            places: [Place::free(); 20],
            ended: [Ended::none(); 160],
            last: 0,
            step: 0,
        }
    }

    // Takes the whole list of orders now in force, any bytes of any length: one step, or a refusal that changes nothing. That the desk was
    // made is asked for, and is no invariant: `desk_writer::write` takes any desk.
    pub fn accept(self, list: &[u8]) -> Answer
        requires { Made self }
        ensures { answer_in result ≡ accept_of base_rest self list.now }
    {
        if let Err(refusal) = orders::refusal_of(self.places, list) {
            return Answer {
                verdict: Err(refusal),
                desk: self,
            };
        }
        let step = (self.step + 1) % Desk::STEPS;
        let n = (list.len() / order_list::LENGTH) as u8;
        let Remains {
            places: kept,
            ended,
        } = leaving::leave(list, n, step, self.places, self.ended);
        let first = Seats {
            places: kept,
            last: self.last,
        };
        let at_rest = AtRest {
            ended,
            rest: Desk::REST,
            step,
        };
        let Seats { places, last } = arriving::seat_all(first, at_rest, list, n);
        Answer {
            verdict: Ok(()),
            desk: Desk {
                places,
                ended,
                last,
                step,
            },
        }
    }
}
