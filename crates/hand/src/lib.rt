// The set in hand, in the lent memory of a listener: the packets of one step that are held so far.
#![tactic(auto)]

ghost use Rattle.std.specs.Prelude.{◌≡◌, map, ◌-◌, ◌≤◌};
ghost use Rattle.std.proofs.lemmas.List.Edits.{sets};
ghost use Rattle.telegram.specs.Tables.{packets, first_packet};
ghost use Rattle.memory.specs.Memory.{step_from, held_from, flags_at};
ghost use Rattle.hand.specs.Sets.{is_held, is_whole};
ghost use Rattle.hand.specs.Lent.{hand_in, hand_bytes, begun_in, four_in, joined_in};

use condition::Slot;
use memory::SET;
use std::array::from_fn;
use telegram::FIRST_PACKET;

// How many packets carry a table.
const PACKETS: usize = 5;

// Where the step number of the set and the packets that are held stand in the memory.
const STEP: usize = 163;

const HELD: usize = 165;

// A set by value: which of the packets 3 to 7 are held, and the twenty slots, empty where no packet has come. Flags beside the slots, since
// a lent memory may have slots of a packet that is not held, and `hand_in` says what those are.
#[derive(Clone, Copy)]
pub struct Hand {
    pub step: u16,
    pub held: [bool; 5],
    pub slots: [Slot; 20],
}

// A set with nothing in it begins.
pub fn begin(memory: &mut [u8; 310], step: u16)
    ensures { memory.new ≡ begun_in memory.old step }
{
    memory[STEP..HELD].copy_from_slice(&step.to_be_bytes());
    memory[HELD..].fill(0);
}

// The step number of the set.
#[tactic(auto, unfolding(crate::specs::Lent::hand_in))]
pub fn step_of(memory: &[u8; 310]) -> u16
    ensures { result ≡ (hand_in memory.now).step }
{
    wire::word(memory[STEP], memory[STEP + 1])
}

// Where a packet stands among the five: 0 for packet 3. Packets 0 to 2 are taken as packet 3, and those above 7 lie past the five: the
// reader gives neither.
fn place_of(packet: u8) -> usize
    ensures { result ≡ packet - first_packet }
{
    packet.saturating_sub(FIRST_PACKET) as usize
}

// Whether a packet is held.
pub fn is_held(memory: &[u8; 310], packet: u8) -> bool
    ensures { result ≡ is_held (hand_in memory.now) packet }
{
    let k = place_of(packet);
    k < PACKETS && memory[HELD + k] != 0
}

// The four slots of a telegram from slot i of the set on. The test is never met; by it the compiler knows that each of the four has a
// place.
fn put_four(memory: &mut [u8; 310], i: usize, telegram: &[u8])
    requires { i ≤ 16 }
    ensures { memory.new ≡ four_in telegram.now i memory.old 4 }
{
    if i > 16 {
        return;
    }
    for k in 0..4 {
        memory::put_slot(memory, i + k, telegram_reader::place_slot(telegram, k));
    }
}

// A telegram goes into the set.
pub fn join(memory: &mut [u8; 310], telegram: &[u8])
    ensures { memory.new ≡ joined_in memory.old telegram.now }
{
    let packet = telegram::packet_in(telegram);
    memory[HELD + place_of(packet)] = 1;
    put_four(memory, telegram::first_slot(packet), telegram)
}

// Whether five packets are held.
pub fn is_whole(memory: &[u8; 310]) -> bool
    ensures { result ≡ is_whole (hand_in memory.now) }
{
    memory[HELD..SET].iter().all(|byte| *byte != 0)
}

// Which of the five packets are held. By `from_fn`, since the memory has no array of five that a `map` could go over. One function for
// these flags and `memory::marks_in` would be public and ask for room.
fn held_in(memory: &[u8; 310]) -> [bool; 5]
    ensures { result ≡ flags_at memory.now held_from packets }
{
    from_fn(|k| memory[HELD + k] != 0)
}

// The set by value.
#[tactic(auto, unfolding(crate::specs::Lent::hand_in))]
pub fn hand_in(memory: &[u8; 310]) -> Hand
    ensures { result ≡ hand_in memory.now }
{
    Hand {
        step: step_of(memory),
        held: held_in(memory),
        slots: memory::set_in(memory),
    }
}

// A set put into the memory.
pub fn put_hand(memory: &mut [u8; 310], hand: Hand)
    ensures { memory.new ≡ sets memory.old step_from (hand_bytes hand) }
{
    memory[STEP..HELD].copy_from_slice(&hand.step.to_be_bytes());
    memory[HELD..SET].copy_from_slice(&hand.held.map(u8::from));
    memory::put_set(memory, hand.slots)
}
