// The listener: it hears telegrams of any bytes and holds the picture, the last table that it heard whole, with a mark at each
// entry that was carried on from the picture before. Packets of a table that is not yet whole are the set in hand.
//
// It works in memory that is lent (`hear_in`), so that no table is handed over for a telegram. `Listener::hear` is the same by value.
#![tactic(auto)]

ghost use Rattle.std.specs.Prelude.{◌≡◌};
ghost use Rattle.telegram.specs.Telegrams.{telegram_of, read_refusal, read_of};
ghost use Rattle.hand.specs.Lent.{hand_in};
ghost use Rattle.hand.specs.Sets.{set_for, is_held};
ghost use Rattle.listener.specs.Answers.{told_of, hearing_of};
ghost use Rattle.listener.specs.Listeners.{carries, fresh_listener, heard_of, hear_of};
ghost use Rattle.listener.specs.Lent.{listener_in, listener_bytes, memory_for, shifted_in, LeftBy, HeardIn, taken_left, judged_left, added_left};

use condition::Slot;
use hand::Hand;
use wire::Refusal;

#[derive(Clone, Copy)]
pub struct Listener {
    pub picture: [Slot; 20],
    pub marks: [bool; 20],
    pub last: Option<u16>,
    pub hand: Hand,
}

// What a telegram was: refused under a number of document 01, a repeat, held for a set that is not yet whole, or the last one of a
// table that was taken, with its step number, how many conditions it has, and the gap from the table before it. The refusal is a number of
// any size, and no `Refusal`, since `put_heard` of listing_tables and `Tally::count` of summary take every number.
#[derive(Clone, Copy)]
pub enum Answer {
    Refused(u8),
    Repeat,
    Held,
    Taken { step: u16, count: u8, gap: u16 },
}

// The answer, with the next listener beside it.
#[derive(Clone, Copy)]
pub struct Heard {
    pub answer: Answer,
    pub listener: Listener,
}

impl Listener {
    // The greatest gap over which an entry is carried.
    pub const CARRIES: u16 = 8;

    // A listener that has heard nothing.
    #[tactic(auto, unfolding(crate::specs::Listeners::fresh_listener, hand::specs::Sets::begun))]
    pub fn fresh() -> Self
        ensures { result ≡ fresh_listener }
    {
        Listener {
            picture: [Slot::empty(); 20],
            marks: [false; 20],
            last: None,
            hand: Hand {
                step: 0,
                held: [false; 5],
                slots: [Slot::empty(); 20],
            },
        }
    }

    // Hears a telegram of any bytes and any length.
    pub fn hear(self, telegram: &[u8]) -> Heard
        ensures { hearing_of result ≡ hear_of carries self (read_of telegram.now) }
    {
        let mut memory = memory_of(self);
        let answer = hear_in(&mut memory, telegram);
        Heard {
            answer,
            listener: listener_in(&memory),
        }
    }
}

// The memory of a listener.
pub fn memory_of(listener: Listener) -> [u8; 310]
    ensures { result ≡ listener_bytes listener }
{
    let mut memory = [0; 310];
    memory::put_picture(&mut memory, listener.picture);
    memory::put_marks(&mut memory, listener.marks);
    last_step::put_last(&mut memory, listener.last);
    hand::put_hand(&mut memory, listener.hand);
    memory
}

// The listener that a memory means.
#[tactic(auto, unfolding(crate::specs::Lent::listener_in))]
pub fn listener_in(memory: &[u8; 310]) -> Listener
    ensures { result ≡ listener_in memory.now }
{
    Listener {
        picture: memory::picture_in(memory),
        marks: memory::marks_in(memory),
        last: last_step::last_in(memory),
        hand: hand::hand_in(memory),
    }
}

// The set becomes the picture, and no set is in hand: that is a set with nothing held, since `begun_in` and the lent memory have it so.
#[tactic(auto, unfolding(crate::specs::Lent::shifted_in))]
fn shift(memory: &mut [u8; 310], step: u16, marks: [bool; 20])
    ensures { memory.new ≡ shifted_in memory.old step marks }
{
    memory::put_marks(memory, marks);
    memory::show(memory);
    last_step::take_step(memory, step);
    hand::begin(memory, 0)
}

// A whole set is taken.
fn take(memory: &mut [u8; 310]) -> Answer
    ensures { record { told = told_of result; memory = memory.new } ≡ taken_left carries memory.old }
{
    let step = hand::step_of(memory);
    let gap = last_step::gap_from(last_step::last_in(memory), step);
    let count = picture::count_of(memory);
    let marks = marks::marks_of(Listener::CARRIES, gap, memory);
    shift(memory, step, marks);
    Answer::Taken { step, count, gap }
}

// A whole set is refused, or taken.
fn judge(memory: &mut [u8; 310]) -> Answer
    ensures { record { told = told_of result; memory = memory.new } ≡ judged_left carries memory.old }
{
    if picture::clashes(memory) {
        hand::begin(memory, 0);
        Answer::Refused(u8::from(Refusal::NumberClash))
    } else {
        take(memory)
    }
}

// A telegram goes into the set, which is judged once it is whole.
fn add(memory: &mut [u8; 310], telegram: &[u8]) -> Answer
    ensures { record { told = told_of result; memory = memory.new } ≡ added_left carries memory.old telegram.now }
{
    hand::join(memory, telegram);
    if hand::is_whole(memory) {
        judge(memory)
    } else {
        Answer::Held
    }
}

// Whether a packet is held already for the set of this step. A set of another step is dropped, and one of this step begins.
fn find_or_begin(memory: &mut [u8; 310], step: u16, packet: u8) -> bool
    ensures { (result ≡ is_held (set_for (hand_in memory.old) step) packet) × (memory.new ≡ memory_for memory.old step) }
{
    if hand::step_of(memory) == step {
        hand::is_held(memory, packet)
    } else {
        hand::begin(memory, step);
        false
    }
}

// A telegram that the reader accepts.
fn listen(memory: &mut [u8; 310], telegram: &[u8]) -> Answer
    requires { read_refusal telegram.now ≡ 0 }
    ensures { LeftBy carries (heard_of carries (listener_in memory.old) (telegram_of telegram.now)) memory.old telegram.now (told_of result) memory.new }
{
    let step = telegram::step_in(telegram);
    let packet = telegram::packet_in(telegram);
    if last_step::is_last(last_step::last_in(memory), step) || find_or_begin(memory, step, packet) {
        Answer::Repeat
    } else {
        add(memory, telegram)
    }
}

// Hears a telegram of any bytes and any length, in lent memory.
pub fn hear_in(memory: &mut [u8; 310], telegram: &[u8]) -> Answer
    ensures { HeardIn carries memory.old telegram.now result memory.new }
{
    match telegram_reader::refusal_of(telegram) {
        Ok(()) => listen(memory, telegram),
        Err(refusal) => Answer::Refused(u8::from(refusal)),
    }
}
