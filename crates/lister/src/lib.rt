// A recording of telegrams, listed piece by piece on a sheet. A piece is any bytes: a telegram may begin in one piece and end in a later
// one.
#![tactic(auto)]

ghost use Rattle.std.specs.Prelude.{◌+◌, ◌-◌, ◌/◌, ◌≤◌, min, ◌≡◌, [], ◌∷◌, length, cond, ◌⊎◌, eqb};
ghost use Rattle.text.specs.Putting.{put_on};
ghost use Rattle.listener.specs.Lent.{listener_in, HeardIn};
ghost use Rattle.listener.specs.Listeners.{carries};
ghost use Rattle.listing_tables.specs.Tables.{heard_lines};
ghost use Rattle.lister.specs.Hearings.{heard_by, lines_for};
ghost use Rattle.lister.specs.Pieces.{begun_lister, keeping, take_of, piece_lines, MadeByPieces};
ghost use Rattle.lister.specs.Lent.{HeardNext};

use listener::{Answer, Listener};
use telegram::LENGTH;
use text::Sheet;

// What is kept from one piece to the next: the listener, how many tables it has taken, and the first bytes of a telegram that is not yet
// whole; zeros follow them. No heap, so that the bytes have a count beside them; and the record stays as it is, since `finish` of listing
// and `put` of summary take whatever it holds.
#[derive(Clone, Copy)]
pub struct Lister {
    pub listener: Listener,
    pub tables: u64,
    pub tail: [u8; 26],
    pub kept: usize,
}

// How many tables were taken after one telegram more, and what it was.
#[derive(Clone, Copy)]
struct Next {
    tables: u64,
    answer: Answer,
}

impl Lister {
    // Before any piece.
    #[tactic(auto, unfolding(crate::specs::Pieces::begun_lister))]
    pub fn begun() -> Self
        ensures { result ≡ begun_lister }
    {
        Lister {
            listener: Listener::fresh(),
            tables: 0,
            tail: [0u8; 26],
            kept: 0,
        }
    }

    // Hears the telegrams that become whole with this piece, and keeps the bytes that are left. First those bytes that the telegram in hand
    // still lacks, then telegrams that lie whole in the piece, and then what is left. That the lister was made is asked for, here and
    // below. It is no invariant of `Lister`, since `finish` of listing takes any; and no ghost field of a type round it: of such a fact
    // there is one proof at most, and a lister may come of pieces in many ways.
    pub fn take(self, piece: &[u8], listing: &mut Sheet<'_>) -> Self
        requires { MadeByPieces self }
        ensures { (result ≡ take_of self piece.now) × (listing.new ≡ put_on (piece_lines self piece.now) listing.old) }
    {
        let (begun, rest) = piece.split_at(lacking(self.kept, piece.len()));
        let between = bite(self, begun, listing);
        take_rest(between, rest, listing)
    }
}

// How many bytes of a piece the telegram in hand still lacks: none where none is begun, all where they do not make it whole.
fn lacking(kept: usize, size: usize) -> usize
    requires { kept ≤ 26 }
    ensures { result ≡ cond (eqb kept 0) 0 (min (26 - kept) size) }
{
    if kept == 0 {
        0
    } else {
        (LENGTH - kept).min(size)
    }
}

// Hears one telegram in lent memory, and puts its lines. The count of tables stays at the greatest number that it can hold.
fn hear_next(memory: &mut [u8; 310], tables: u64, telegram: &[u8], listing: &mut Sheet<'_>) -> Next
    ensures { HeardNext (heard_by (listener_in memory.old) telegram.now) tables (listener_in memory.new) result.tables
        × (listing.new ≡ put_on (heard_lines (heard_by (listener_in memory.old) telegram.now)) listing.old)
        × HeardIn carries memory.old telegram.now result.answer memory.new }
{
    let answer = listener::hear_in(memory, telegram);
    listing_tables::put_heard(answer, memory, listing);
    Next {
        tables: tables.saturating_add(listing_tables::tables_of(answer)),
        answer,
    }
}

// Hears one telegram in lent memory, as `listener::hear_in` does, and lists nothing. Who counts telegrams beside a listing hears them here:
// then a program has one place where a telegram is heard, and its compiler opens it there, as it does where nothing is counted.
pub fn hear_in(memory: &mut [u8; 310], telegram: &[u8]) -> Answer
    ensures { HeardIn carries memory.old telegram.now result memory.new }
{
    let mut lines = [0u8; 1];
    let mut listing = Sheet::on(&mut lines, 1);
    hear_next(memory, 0, telegram, &mut listing).answer
}

// Hears one telegram; nothing is left of it.
fn hear_one(lister: Lister, telegram: &[u8], listing: &mut Sheet<'_>) -> Lister
    ensures { (result ≡ keeping lister (telegram.now ∷ []) []) × (listing.new ≡ put_on (lines_for lister.listener (telegram.now ∷ [])) listing.old) }
{
    let mut memory = listener::memory_of(lister.listener);
    let next = hear_next(&mut memory, lister.tables, telegram, listing);
    Lister {
        listener: listener::listener_in(&memory),
        tables: next.tables,
        tail: [0u8; 26],
        kept: 0,
    }
}

// Takes a piece where no telegram is begun, or an empty one: hears the telegrams that lie whole in it, one after another, and keeps what is
// left. The listener stands in lent memory from the first to the last.
fn take_rest(lister: Lister, piece: &[u8], listing: &mut Sheet<'_>) -> Lister
    requires { MadeByPieces lister × ((lister.kept ≡ 0) ⊎ (length piece.now ≡ 0)) }
    ensures { (result ≡ take_of lister piece.now) × (listing.new ≡ put_on (piece_lines lister piece.now) listing.old) }
{
    let mut memory = listener::memory_of(lister.listener);
    let mut tables = lister.tables;
    let telegrams = piece.chunks_exact(LENGTH);
    let left = telegrams.remainder();
    for telegram in telegrams {
        tables = hear_next(&mut memory, tables, telegram, listing).tables;
    }
    let after = Lister {
        listener: listener::listener_in(&memory),
        tables,
        ..lister
    };
    bite(after, left, listing)
}

// Takes a piece that is not longer than what the telegram in hand still lacks.
fn bite(lister: Lister, bytes: &[u8], listing: &mut Sheet<'_>) -> Lister
    requires { MadeByPieces lister × (lister.kept + length bytes.now ≤ 26) }
    ensures { (result ≡ take_of lister bytes.now) × (listing.new ≡ put_on (piece_lines lister bytes.now) listing.old) }
{
    let mut tail = lister.tail;
    let kept = lister.kept + bytes.len();
    tail[lister.kept..kept].copy_from_slice(bytes);
    if LENGTH <= kept {
        hear_one(lister, &tail, listing)
    } else {
        Lister {
            tail,
            kept,
            ..lister
        }
    }
}
