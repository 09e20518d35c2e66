// The summary of a recording: how many telegrams, tables, repeats and refusals it has, counted beside the listing and only where it is
// asked for, and its text on a sheet.
#![tactic(auto)]

ghost use Rattle.std.specs.Prelude.{◌≡◌, []};
ghost use Rattle.text.specs.Putting.{put_on};
ghost use Rattle.listener.specs.Answers.{refused_as, told_of};
ghost use Rattle.lister.specs.Pieces.{MadeByPieces};
ghost use Rattle.summary.specs.Counts.{tally_of};
ghost use Rattle.summary.specs.Tallies.{counted, counted_piece};
ghost use Rattle.summary.specs.Summaries.{with_number, count_line, count_lines, refusal_part, refusal_parts, packet_part, packet_parts, unfinished_part, tail_part, summary_of};

use hand::Hand;
use listener::Answer;
use lister::Lister;
use telegram::LENGTH;
use text::{LINE_FEED, Sheet};

// How many telegrams were refused under a number, and the place of the first of them, counted from 1, or 0 where there was none. No Option
// of a place: `Tally::count` and `put` take whatever a record holds, and a count without a place is such a record.
#[derive(Clone, Copy)]
pub struct Refusals {
    pub count: u64,
    pub first: u64,
}

// How many telegrams, tables and repeats there were, and for each number what was refused under it. Refusals have numbers up to 15. A count
// stays at the greatest number that it can hold.
#[derive(Clone, Copy)]
pub struct Tally {
    pub telegrams: u64,
    pub tables: u64,
    pub repeats: u64,
    pub refused: [Refusals; 16],
}

impl Tally {
    // Before any telegram.
    #[tactic(auto, unfolding(kit::specs::Each::each, crate::specs::Counts::tally_of, crate::specs::Counts::how_many_told, crate::specs::Counts::for_each_number, crate::specs::Counts::first_from))]
    pub fn none() -> Self
        ensures { result ≡ tally_of [] }
    {
        Tally {
            telegrams: 0,
            tables: 0,
            repeats: 0,
            refused: [Refusals { count: 0, first: 0 }; 16],
        }
    }

    // With one answer more.
    #[tactic(auto, unfolding(crate::specs::Tallies::counted))]
    pub fn count(self, answer: Answer) -> Self
        ensures { result ≡ counted self (told_of answer) }
    {
        let telegrams = self.telegrams.saturating_add(1);
        match answer {
            Answer::Refused(number) => refuse(self, number),
            Answer::Repeat => Tally {
                telegrams,
                repeats: self.repeats.saturating_add(1),
                ..self
            },
            Answer::Held => Tally { telegrams, ..self },
            Answer::Taken { .. } => Tally {
                telegrams,
                tables: self.tables.saturating_add(1),
                ..self
            },
        }
    }

    // With the telegrams that become whole with this piece: first the one in hand, then those that lie whole in the piece. `lister` is the
    // state before the piece.
    pub fn take(self, lister: Lister, piece: &[u8]) -> Self
        requires { MadeByPieces lister }
        ensures { result ≡ counted_piece self lister piece.now }
    {
        let Some((end, rest)) = piece.split_at_checked(LENGTH - lister.kept) else {
            return self;
        };
        let mut memory = listener::memory_of(lister.listener);
        let mut first = lister.tail;
        first[lister.kept..].copy_from_slice(end);
        let mut tally = self.count(lister::hear_in(&mut memory, &first));
        for telegram in rest.chunks_exact(LENGTH) {
            tally = tally.count(lister::hear_in(&mut memory, telegram));
        }
        tally
    }
}

// With one telegram more, which was refused under this number. The listener gives none above 15.
#[tactic(auto, unfolding(crate::specs::Tallies::counted))]
fn refuse(mut tally: Tally, number: u8) -> Tally
    ensures { result ≡ counted tally (refused_as number) }
{
    tally.telegrams = tally.telegrams.saturating_add(1);
    let n = number as usize;
    if n < tally.refused.len() {
        let Refusals { count, first } = tally.refused[n];
        tally.refused[n] = Refusals {
            count: count.saturating_add(1),
            first: if first == 0 { tally.telegrams } else { first },
        };
    }
    tally
}

// Words, and a number after them.
#[tactic(auto, using(text::proofs::Putting::put_next))]
fn put_numbered(words: &[u8], number: u64, sheet: &mut Sheet<'_>)
    ensures { sheet.new ≡ put_on (with_number words.now number) sheet.old }
{
    sheet.put_words(words);
    sheet.put_decimal(number);
}

// A word, a count and a line feed.
#[tactic(auto, using(text::proofs::Putting::put_next))]
fn put_count(word: &[u8], count: u64, sheet: &mut Sheet<'_>)
    ensures { sheet.new ≡ put_on (count_line word.now count) sheet.old }
{
    put_numbered(word, count, sheet);
    sheet.put_byte(LINE_FEED);
}

// How many telegrams, tables and repeats.
#[tactic(auto, unfolding(crate::specs::Summaries::count_lines), using(text::proofs::Putting::put_next))]
fn put_counts(tally: &Tally, sheet: &mut Sheet<'_>)
    ensures { sheet.new ≡ put_on (count_lines tally.now.telegrams tally.now.tables tally.now.repeats) sheet.old }
{
    put_count(b"telegrams ", tally.telegrams, sheet);
    put_count(b"tables ", tally.tables, sheet);
    put_count(b"repeats ", tally.repeats, sheet);
}

// `refused R: N, first at telegram P`, where some are refused under the number.
#[tactic(auto, unfolding(crate::specs::Summaries::refusal_part, crate::specs::Summaries::refusal_line), using(text::proofs::Putting::put_next, text::proofs::Putting::put_none))]
fn put_refusal(number: u64, refused: Refusals, sheet: &mut Sheet<'_>)
    ensures { sheet.new ≡ put_on (refusal_part number refused.count refused.first) sheet.old }
{
    if refused.count != 0 {
        put_numbered(b"refused ", number, sheet);
        put_numbered(b": ", refused.count, sheet);
        put_numbered(b", first at telegram ", refused.first, sheet);
        sheet.put_byte(LINE_FEED);
    }
}

// For each number, ascending.
fn put_refusals(tally: &Tally, sheet: &mut Sheet<'_>)
    ensures { sheet.new ≡ put_on (refusal_parts tally.now.refused) sheet.old }
{
    for (number, refused) in tally.refused.iter().enumerate() {
        put_refusal(number as u64, *refused, sheet);
    }
}

// A packet that is held, after a blank.
#[tactic(auto, unfolding(crate::specs::Summaries::packet_part), using(text::proofs::Putting::put_none))]
fn put_packet(is_held: bool, packet: u64, sheet: &mut Sheet<'_>)
    ensures { sheet.new ≡ put_on (packet_part is_held packet) sheet.old }
{
    if is_held {
        put_numbered(b" ", packet, sheet);
    }
}

// The packets that are held, ascending.
fn put_packets(held: [bool; 5], sheet: &mut Sheet<'_>)
    ensures { sheet.new ≡ put_on (packet_parts held) sheet.old }
{
    for (k, is_held) in held.iter().enumerate() {
        put_packet(*is_held, k as u64 + 3, sheet);
    }
}

// `unfinished: step S, packets A B C`, where a set is in hand.
fn put_unfinished(hand: Hand, sheet: &mut Sheet<'_>)
    ensures { sheet.new ≡ put_on (unfinished_part hand) sheet.old }
{
    if hand.held.contains(&true) {
        put_numbered(b"unfinished: step ", hand.step.into(), sheet);
        sheet.put_words(b", packets");
        put_packets(hand.held, sheet);
        sheet.put_byte(LINE_FEED);
    }
}

// `tail of N bytes` where some are left.
#[tactic(auto, unfolding(crate::specs::Summaries::tail_part), using(text::proofs::Putting::put_next, text::proofs::Putting::put_none))]
fn put_tail(kept: usize, sheet: &mut Sheet<'_>)
    ensures { sheet.new ≡ put_on (tail_part kept) sheet.old }
{
    if kept != 0 {
        put_numbered(b"tail of ", kept as u64, sheet);
        sheet.put_words(b" bytes\n");
    }
}

// The text of a summary, of the counts and the state at the end of the input. What has no room on the sheet is dropped.
#[tactic(auto, unfolding(crate::specs::Summaries::summary_of), using(text::proofs::Putting::put_next))]
pub fn put(tally: Tally, lister: Lister, sheet: &mut Sheet<'_>)
    ensures { sheet.new ≡ put_on (summary_of tally lister) sheet.old }
{
    put_counts(&tally, sheet);
    put_refusals(&tally, sheet);
    put_unfinished(lister.listener.hand, sheet);
    put_tail(lister.kept, sheet);
}
