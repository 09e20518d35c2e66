// Reads a recording of telegrams, one after another, and writes its listing to standard output. It is read in pieces, each what one read
// gave, so that a recording may have any length and a table is shown when its last telegram has come.
#![tactic(auto)]

ghost use Rattle.std.specs.Prelude.{◌≡◌, ◌≤◌, [], cond, length, IfSome};
ghost use Rattle.std.specs.Option.{option_map};
ghost use Rattle.kit.specs.Put.{Put, Poured};
ghost use Rattle.outcomes.specs.Ends.{at_the_end};
ghost use Rattle.lister.specs.Pieces.{take_of, piece_lines, MadeByPieces};
ghost use Rattle.listing_lines.specs.Lines.{header_line};
ghost use Rattle.listing.specs.Listings.{end_of};
ghost use Rattle.summary.specs.Rooms.{summary_room, Countable};
ghost use Rattle.summary.specs.Counts.{tally_of};
ghost use Rattle.summary.specs.Tallies.{counted_piece};
ghost use Rattle.summary.specs.Summaries.{summary_of};
ghost use Rattle.listing_room.specs.Rooms.{piece_room, lines_room, header_room, end_room};

use lister::Lister;
use outcomes::{Progress, State};
use program::{Asked, Program};
use streams::{Output, Source, Stopped, System};
use summary::Tally;
use text::Sheet;

fn main(rt: HostRuntime) {
    let system = System {
        rt: &rt,
        program: Program::ListConditions,
    };
    // what stopped it was told
    system.run(|asked, source, progress| list(begun_tally(asked), source, progress).unwrap_or(()));
}

// What is counted from, where a summary is asked for.
fn begun_tally(asked: Asked) -> Option<Tally>
    ensures asked { result ≡ cond asked.summary (Some (tally_of [])) None }
    ensures fits { IfSome result Countable }
{
    asked.summary.then(Tally::none)
}

// Lists the input to its end, or to the first read or write that fails. What it had is counted only where a summary is asked for. The
// source and its progress, and below a lister with a tally or a state, come as two: a record of them would be made for one call or two.
fn list(counted: Option<Tally>, source: &Source, begun: Progress) -> Result<(), Stopped>
    requires { IfSome counted Countable }
{
    let system = source.system;
    show_header(system)?;
    let mut lister = Lister::begun();
    let mut tally = counted;
    let mut progress = begun;
    // one buffer for the lines of every piece, so that it is cleared once
    let mut out = [0u8; 262080];
    for _ in 0..u64::MAX {
        let mut piece = [0u8; 10400];
        let outcome = source.read(&mut piece);
        progress = system.went_on(progress, outcome.unwrap_or(0));
        match outcome {
            Ok(n) => {
                tally = count_piece(tally, lister, &piece[..n]);
                show_piece(system, &mut lister, &piece[..n], &mut out)?;
            }
            Err(state) => {
                system.end_progress(progress);
                show_end(system, state, lister)?;
                return match tally {
                    Some(tally) => show_summary(system, state, tally, lister),
                    None => Ok(()),
                };
            }
        }
    }
    Ok(())
}

// Counts what a piece brings, where that is asked for. That the lister was made is asked for here and below, and kept by no ghost field
// of a type round it: of such a fact there is one proof at most, and a lister may come of pieces in many ways.
fn count_piece(tally: Option<Tally>, lister: Lister, piece: &[u8]) -> Option<Tally>
    requires { MadeByPieces lister }
    ensures { result ≡ option_map (λ tally. counted_piece tally lister piece.now) tally }
{
    tally.map(|tally| tally.take(lister, piece))
}

// Puts the header, all of it: the buffer has the size for which that is proved (listing_room/specs/Rooms.antt). Here and below a slice of
// that size is asked for, and no array type has it: the size is a definition there, of which the room is proved, and it is the contract
// that refuses another.
fn put_header(out: &mut [u8]) -> usize
    requires { length out.old ≡ header_room }
    ensures { Put out.old 0 header_line out.new result }
{
    let mut sheet = Sheet::on(out, 0);
    listing_lines::put_header(&mut sheet);
    sheet.at
}

// Writes the header.
fn show_header(system: System) -> Result<(), Stopped> {
    let mut out = [0u8; 16];
    let n = put_header(&mut out);
    system.write(Output::Standard, &out[..n])
}

// Puts the lines of one piece. It asks for the sizes for which it is proved that all of them have room (listing_room/proofs/Room.antt).
fn put_piece(lister: &mut Lister, piece: &[u8], out: &mut [u8]) -> usize
    requires { MadeByPieces lister.old × (length piece.now ≤ piece_room) × (length out.old ≡ lines_room) }
    ensures { (lister.new ≡ take_of lister.old piece.now) × Poured out.old 0 (piece_lines lister.old piece.now) out.new result }
{
    let mut sheet = Sheet::on(out, 0);
    *lister = lister.take(piece, &mut sheet);
    sheet.at
}

// Writes the lines of one piece.
fn show_piece(
    system: System,
    lister: &mut Lister,
    piece: &[u8],
    out: &mut [u8],
) -> Result<(), Stopped>
    requires { MadeByPieces lister.old × (length piece.now ≤ piece_room) × (length out.old ≡ lines_room) }
    ensures { lister.new ≡ take_of lister.old piece.now }
{
    let n = put_piece(lister, piece, out);
    system.write(Output::Standard, &out[..n])
}

// Puts what stands at the end: where the input has ended, the line of a short tail and the last line, all of both, since the buffer has the
// size for which that is proved; after a read that failed, nothing.
fn put_end(state: State, lister: Lister, out: &mut [u8]) -> usize
    requires { MadeByPieces lister × (length out.old ≡ end_room) }
    ensures { Put out.old 0 (at_the_end state (end_of lister)) out.new result }
{
    if outcomes::is_ended(state) {
        let mut sheet = Sheet::on(out, 0);
        listing::finish(lister, &mut sheet);
        sheet.at
    } else {
        0
    }
}

// Writes it.
fn show_end(system: System, state: State, lister: Lister) -> Result<(), Stopped>
    requires { MadeByPieces lister }
{
    let mut out = [0u8; 64];
    let n = put_end(state, lister, &mut out);
    system.write(Output::Standard, &out[..n])
}

// Puts the summary where the input has ended, all of it, since the buffer has the size for which that is proved; after a read that failed,
// nothing.
fn put_summary(state: State, tally: Tally, lister: Lister, out: &mut [u8]) -> usize
    requires { MadeByPieces lister × Countable tally × (length out.old ≡ summary_room) }
    ensures { Put out.old 0 (at_the_end state (summary_of tally lister)) out.new result }
{
    let ended = outcomes::is_ended(state);
    if ended {
        let mut sheet = Sheet::on(out, 0);
        summary::put(tally, lister, &mut sheet);
        sheet.at
    } else {
        0
    }
}

// Writes it to error output.
fn show_summary(system: System, state: State, tally: Tally, lister: Lister) -> Result<(), Stopped>
    requires { MadeByPieces lister × Countable tally }
{
    let mut out = [0u8; 1536];
    let n = put_summary(state, tally, lister, &mut out);
    system.write(Output::Errors, &out[..n])
}
