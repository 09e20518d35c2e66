// Which entries of the set in the lent memory of a listener are carried on from the picture before it.
#![tactic(auto)]

ghost use Rattle.std.specs.Prelude.{◌+◌, ◌<◌, ◌≤◌, true, ◌≡◌, get_or};
ghost use Rattle.kit.specs.Loops.{any};
ghost use Rattle.condition.specs.Slots.{slot_count};
ghost use Rattle.memory.specs.Memory.{kind_from, picture_in, set_in};
ghost use Rattle.marks.specs.Marks.{marks_of};
ghost use Rattle.marks.specs.Lent.{has_both, is_there, all_there, IsHead, set_holds, Sorted, Seen};

use condition::SLOTS;
use kinds::{CURRENT, TRACTION};
use memory::{ByteSet, PICTURE, SET, SLOT};

// One more than the greatest number of three bytes.
const THREE_BYTES: u32 = 0x1000000;

// The type of a slot, by the byte that says what it holds and the byte after it (memory/specs/Memory.antt).
#[tactic(auto, unfolding(memory::specs::Memory::kind_from))]
fn kind_of(shape: u8, own: u8) -> u8
    ensures { result ≡ kind_from shape own }
{
    match shape {
        0 => 0,
        1 => own,
        2 => TRACTION,
        _ => CURRENT,
    }
}

// Whether slot j of the picture has the number and the type.
fn has_both(memory: &[u8; 310], j: usize, number: u8, kind: u8) -> bool
    requires { j < 20 }
    ensures { result ≡ has_both memory.now number kind j }
{
    let at = PICTURE + SLOT * j;
    memory[at] == number && kind_of(memory[at + 1], memory[at + 2]) == kind
}

// Whether any slot of the picture has them.
fn is_known(memory: &[u8; 310], number: u8, kind: u8) -> bool
    ensures { result ≡ any (has_both memory.now number kind) 0 slot_count }
{
    (0..SLOTS).any(|j| has_both(memory, j, number, kind))
}

// The head of the slot whose bytes begin at `at`: its first four bytes as one number, the first of them lowest, which the processor reads
// at once. What is asked of it stands in the lower three: the slot's number, what it holds, and the byte after that.
fn head_at(memory: &[u8; 310], at: usize) -> u32
    requires { at + 4 ≤ 310 }
    ensures { IsHead (get_or memory.now at 0) (get_or memory.now (at + 1) 0) (get_or memory.now (at + 2) 0) result }
{
    u32::from_le_bytes([memory[at], memory[at + 1], memory[at + 2], memory[at + 3]])
}

// Slot i is marked if it is occupied and begins with the same three bytes as slot i of the picture, and so with one number and one type:
// most entries that are carried stand where they stood before. An occupied one that does not is one of the others, which are looked up
// later. Each slot is put down as the next of them, and only one that is gets counted. Both flags are always asked, since a branch that
// cannot be foretold costs more than the work that it saves. The answer is how many others there are: with no heap they are the first
// so many of an array.
fn sort_out(memory: &[u8; 310], marks: &mut [bool; 20], others: &mut [usize; 20]) -> usize
    ensures { Sorted memory.now slot_count 0 result others.new marks.new }
{
    let mut count = 0;
    for i in 0..SLOTS {
        let head = head_at(memory, SET + SLOT * i);
        let before = head_at(memory, PICTURE + SLOT * i);
        let alike = head % THREE_BYTES == before % THREE_BYTES;
        let occupied = head / 0x100 % 0x100 != 0;
        marks[i] = alike & occupied;
        others[count] = i;
        count += usize::from(!alike & occupied);
    }
    count
}

// The number of each slot of the picture is seen, an empty one's too.
fn all_seen(memory: &[u8; 310]) -> ByteSet
    ensures { Seen memory.now slot_count result.flags }
{
    let mut seen = ByteSet::empty();
    for k in 0..SLOTS {
        seen.insert(memory[PICTURE + SLOT * k]);
    }
    seen
}

// Whether the picture has the number of slot i, which is occupied, with its type. A number that was not seen need not be searched for.
fn is_there(memory: &[u8; 310], seen: &ByteSet, i: usize) -> bool
    requires { (i < 20) × (set_holds memory.now i ≡ true) × Seen memory.now slot_count seen.now.flags }
    ensures { result ≡ is_there memory.now i }
{
    let at = SET + SLOT * i;
    seen.contains(memory[at])
        && is_known(memory, memory[at], kind_of(memory[at + 1], memory[at + 2]))
}

// Each of the others is marked if the picture has it.
fn look_up(memory: &[u8; 310], others: &[usize; 20], count: usize, marks: &mut [bool; 20])
    requires { Sorted memory.now slot_count 0 count others.now marks.old }
    ensures { marks.new ≡ all_there memory.now }
{
    let seen = all_seen(memory);
    for i in &others[..count] {
        marks[*i] = is_there(memory, &seen, *i);
    }
}

// For each slot of the set whether it is occupied and the picture has its number with its type.
fn all_there(memory: &[u8; 310]) -> [bool; 20]
    ensures { result ≡ all_there memory.now }
{
    let mut marks = [false; 20];
    let mut others = [0; 20];
    let count = sort_out(memory, &mut marks, &mut others);
    if count > 0 {
        look_up(memory, &others, count, &mut marks);
    }
    marks
}

// The marks of the set's slots: true for carried, false for new and for empty. The reach is the greatest gap over which one is carried.
pub fn marks_of(reach: u16, gap: u16, memory: &[u8; 310]) -> [bool; 20]
    ensures { result ≡ marks_of reach gap (picture_in memory.now) (set_in memory.now) }
{
    if (1..=reach).contains(&gap) {
        all_there(memory)
    } else {
        [false; 20]
    }
}
