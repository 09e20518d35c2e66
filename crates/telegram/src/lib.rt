// What a telegram of 26 bytes means: a packet number, a step number and four slots; and which four of a table's twenty slots a
// packet carries. specs/ has the layout and the refusals, proofs/ the theorems on them; the crates telegram_reader and
// telegram_writer have the code that reads and writes one.
#![tactic(auto)]

ghost use Rattle.std.specs.Prelude.{◌≤◌, ◌≡◌};
ghost use Rattle.telegram.specs.Tables.{table_slot, first_slot, four_of};
ghost use Rattle.telegram.specs.Telegrams.{packet_in, step_in};

use condition::Slot;
use wire::STEPS;

// How many bytes a telegram has, and the packets that carry a table.
pub const LENGTH: usize = 26;

pub const FIRST_PACKET: u8 = 3;

pub const LAST_PACKET: u8 = 7;

#[derive(Clone, Copy)]
pub struct Telegram {
    pub packet: u8,
    pub step: u16,
    pub slots: [Slot; 4],
}

// In the first two bytes the packet number has the top three bits and the step number the low thirteen. The bytes may be any, and as
// many as come.
pub fn packet_in(telegram: &[u8]) -> u8
    ensures { (result ≡ packet_in telegram.now) × (result ≤ 7) }
{
    (wire::word_at(telegram, 0) / STEPS) as u8
}

pub fn step_in(telegram: &[u8]) -> u16
    ensures { result ≡ step_in telegram.now }
{
    wire::word_at(telegram, 0) % STEPS
}

// Slot i of a table, and past its end an empty one.
pub fn slot_in(table: [Slot; 20], i: usize) -> Slot
    ensures { result ≡ table_slot table i }
{
    table.get(i).copied().unwrap_or(Slot::empty())
}

// The first of the slots that a packet carries. Packets 0 to 2 are taken as packet 3, and those above 7 lie past the table: the
// writer refuses both, and the reader gives neither.
pub fn first_slot(packet: u8) -> usize
    ensures { result ≡ first_slot packet }
{
    4 * packet.saturating_sub(FIRST_PACKET) as usize
}

// Packet p carries slots 4(p-3) to 4(p-3)+3; past the table's end they are empty.
#[tactic(auto, unfolding(crate::specs::Tables::four_of))]
pub fn four_of(table: [Slot; 20], packet: u8) -> [Slot; 4]
    ensures { result ≡ four_of table packet }
{
    let at = first_slot(packet);
    [
        slot_in(table, at),
        slot_in(table, at + 1),
        slot_in(table, at + 2),
        slot_in(table, at + 3),
    ]
}
