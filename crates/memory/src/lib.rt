// The memory of a listener that a host lends: its slots and marks; specs/Memory.antt says what each byte means. And a set of bytes, in
// which those who read the slots keep the numbers that they have seen (byte_set).
#![tactic(auto)]

ghost use Rattle.std.specs.Prelude.{◌+◌, ◌≤◌, ◌≡◌, ◌∷◌, ◌++◌, get_or, false};
ghost use Rattle.std.proofs.lemmas.List.Edits.{sets};
ghost use Rattle.kit.specs.Bytes.{word_bytes};
ghost use Rattle.telegram.specs.Tables.{table_slot};
ghost use Rattle.memory.specs.Memory.{set_from, body_from, stored_slot, table_at, slot_bytes, table_bytes, with_slot, with_picture, with_marks, picture_in, set_in, marks_in};

mod byte_set;

pub use byte_set::ByteSet;
use condition::{Body, SLOTS, Slot};
use std::array::from_fn;

// How many bytes the memory has.
pub const ROOM: usize = 310;

// How many a slot has.
pub const SLOT: usize = 7;

// Where the picture, its marks and the slots of the set in hand begin.
pub const PICTURE: usize = 0;

pub const MARKS: usize = 140;

pub const SET: usize = 170;

// What a slot holds. A number says which, since it is a byte of the memory (specs/Memory.antt).
#[tactic(auto, unfolding(crate::specs::Memory::body_from))]
fn body_of(shape: u8, own: u8, first: u16, second: u16) -> Body
    ensures { result ≡ body_from shape own first second }
{
    match shape {
        0 => Body::Empty,
        1 => Body::Area {
            kind: own,
            entry: first,
            exit: second,
        },
        2 => Body::Traction {
            change: first,
            country: second,
            voltage: own,
        },
        _ => Body::Current {
            change: first,
            limit: second,
        },
    }
}

// The slot whose bytes begin at `at`. It and `put_bytes` ask for room, since the place is worked out from an index that is below twenty.
#[tactic(auto, unfolding(crate::specs::Memory::stored_slot))]
fn slot_at(memory: &[u8; 310], at: usize) -> Slot
    requires { at + 7 ≤ 310 }
    ensures { result ≡ stored_slot memory.now at }
{
    let first = wire::word(memory[at + 3], memory[at + 4]);
    let second = wire::word(memory[at + 5], memory[at + 6]);
    Slot {
        number: memory[at],
        body: body_of(memory[at + 1], memory[at + 2], first, second),
    }
}

// Slot i of the picture.
pub fn shown_slot(memory: &[u8; 310], i: usize) -> Slot
    ensures { result ≡ table_slot (picture_in memory.now) i }
{
    if i < SLOTS {
        slot_at(memory, PICTURE + SLOT * i)
    } else {
        Slot::empty()
    }
}

// Whether slot i of the picture is marked as carried.
pub fn is_marked(memory: &[u8; 310], i: usize) -> bool
    ensures { result ≡ get_or (marks_in memory.now) i false }
{
    i < SLOTS && memory[MARKS + i] != 0
}

// The table whose bytes begin at `from`, made by `from_fn`, since there is no array of slots that a `map` could go over. It asks for room,
// and who calls this crate is asked for nothing: each of the two places that a table has is a function of its own, here and in putting.
fn table_at(memory: &[u8; 310], from: usize) -> [Slot; 20]
    requires { from + 140 ≤ 310 }
    ensures { result ≡ table_at memory.now from }
{
    from_fn(|i| slot_at(memory, from + SLOT * i))
}

// The picture.
pub fn picture_in(memory: &[u8; 310]) -> [Slot; 20]
    ensures { result ≡ picture_in memory.now }
{
    table_at(memory, PICTURE)
}

// The slots of the set in hand.
pub fn set_in(memory: &[u8; 310]) -> [Slot; 20]
    ensures { result ≡ set_in memory.now }
{
    table_at(memory, SET)
}

// Which slots of the picture are marked as carried. By `from_fn`, since the memory has no array of twenty that a `map` could go over.
pub fn marks_in(memory: &[u8; 310]) -> [bool; 20]
    ensures { result ≡ marks_in memory.now }
{
    from_fn(|i| memory[MARKS + i] != 0)
}

// Seven bytes: the two words with their high bytes first.
fn seven(number: u8, shape: u8, own: u8, first: u16, second: u16) -> [u8; 7]
    ensures { result ≡ number ∷ shape ∷ own ∷ (word_bytes first ++ word_bytes second) }
{
    let [first_high, first_low] = first.to_be_bytes();
    let [second_high, second_low] = second.to_be_bytes();
    [
        number,
        shape,
        own,
        first_high,
        first_low,
        second_high,
        second_low,
    ]
}

// The seven bytes of a slot.
#[tactic(auto, unfolding(crate::specs::Memory::slot_bytes))]
fn bytes_of(slot: Slot) -> [u8; 7]
    ensures { result ≡ slot_bytes slot }
{
    match slot.body {
        Body::Empty => seven(slot.number, 0, 0, 0, 0),
        Body::Area { kind, entry, exit } => seven(slot.number, 1, kind, entry, exit),
        Body::Traction {
            change,
            country,
            voltage,
        } => seven(slot.number, 2, voltage, change, country),
        Body::Current { change, limit } => seven(slot.number, 3, 0, change, limit),
    }
}

// The slot's bytes are put in.
fn put_bytes(memory: &mut [u8; 310], at: usize, slot: Slot)
    requires { at + 7 ≤ 310 }
    ensures { memory.new ≡ sets memory.old at (slot_bytes slot) }
{
    memory[at..at + SLOT].copy_from_slice(&bytes_of(slot));
}

// Slot i of the set in hand is put in; past the twentieth nothing is.
#[tactic(auto, unfolding(crate::specs::Memory::with_slot))]
pub fn put_slot(memory: &mut [u8; 310], i: usize, slot: Slot)
    ensures { memory.new ≡ with_slot memory.old i slot }
{
    if i < SLOTS {
        put_bytes(memory, SET + SLOT * i, slot);
    }
}

// The bytes of a table.
fn put_table(memory: &mut [u8; 310], from: usize, table: [Slot; 20])
    requires { from + 140 ≤ 310 }
    ensures { memory.new ≡ sets memory.old from (table_bytes table) }
{
    for (i, slot) in table.iter().enumerate() {
        put_bytes(memory, from + SLOT * i, *slot);
    }
}

// A table becomes the picture.
pub fn put_picture(memory: &mut [u8; 310], table: [Slot; 20])
    ensures { memory.new ≡ sets memory.old 0 (table_bytes table) }
{
    put_table(memory, PICTURE, table)
}

// A table becomes the slots of the set in hand.
pub fn put_set(memory: &mut [u8; 310], table: [Slot; 20])
    ensures { memory.new ≡ sets memory.old set_from (table_bytes table) }
{
    put_table(memory, SET, table)
}

// The slots of the set in hand become the picture.
pub fn show(memory: &mut [u8; 310])
    ensures { memory.new ≡ with_picture memory.old }
{
    memory.copy_within(SET.., PICTURE);
}

// The marks of the picture's slots. By an array's `map` it takes several times as long, and a table is listed in a tenth more.
pub fn put_marks(memory: &mut [u8; 310], marks: [bool; 20])
    ensures { memory.new ≡ with_marks memory.old marks }
{
    for (i, mark) in marks.iter().enumerate() {
        memory[MARKS + i] = u8::from(*mark);
    }
}
