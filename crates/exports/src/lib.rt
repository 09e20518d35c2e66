// What other languages call, as functions of Rattle; exports_c hands each to C under the same name and with the same clauses. Each function
// but `bravolith_list_length`, `bravolith_write` and `bravolith_word` takes bytes and a lent buffer, puts there text or telegrams as the
// programs write them, and answers how many bytes it put. What has no room before the buffer's end is dropped, so that an answer of the
// buffer's whole length tells that it may be too short. include/bravolith.h says the same in C.
#![tactic(auto)]

ghost use Rattle.std.specs.Prelude.{◌≡◌, length};
ghost use Rattle.kit.specs.Put.{Poured};
ghost use Rattle.telegram.specs.Telegrams.{write_refusal, written};
ghost use Rattle.desk.specs.Desks.{packet_of};
ghost use Rattle.listing.specs.Listings.{listing};
ghost use Rattle.listing_length.specs.Lengths.{listing_length};
ghost use Rattle.hearing_runs.specs.Runs.{lines_heard};
ghost use Rattle.listing_reader.specs.Fixed.{word_of, code_of};
ghost use Rattle.desk_runs.specs.Runs.{run_tables, refused_lines, desk_at_end};
ghost use Rattle.signal_runs.specs.Runs.{signal_lines};

// The listing of a recording of telegrams, as list_conditions writes it.
pub fn bravolith_list(recording: &[u8], out: &mut [u8]) -> usize
    ensures { Poured out.old 0 (listing recording.now) out.new result }
{
    listing::list(recording, out)
}

// How many bytes that listing has, so that one that fits its buffer exactly is told from one that was cut.
pub fn bravolith_list_length(recording: &[u8]) -> usize
    ensures { result ≡ listing_length recording.now }
{
    listing_length::length_of(recording)
}

// The lines that such a listing has for telegrams of any length, each after its length in two bytes, which one fresh listener hears.
pub fn bravolith_hear(telegrams: &[u8], out: &mut [u8]) -> usize
    ensures { Poured out.old 0 (lines_heard telegrams.now) out.new result }
{
    hearing_runs::hear(telegrams, out)
}

// The tables of a desk that is handed the lists, as run_desk writes them to standard output.
pub fn bravolith_run(lists: &[u8], out: &mut [u8]) -> usize
    ensures { Poured out.old 0 (run_tables lists.now) out.new result }
{
    let mut lines = [0u8; 1];
    let ran = desk_runs::run(lists, out, &mut lines);
    ran.tables
}

// The lines on refused lists, as run_desk writes them to standard error.
pub fn bravolith_run_lines(lists: &[u8], out: &mut [u8]) -> usize
    ensures { Poured out.old 0 (refused_lines lists.now) out.new result }
{
    let mut tables = [0u8; 1];
    let ran = desk_runs::run(lists, &mut tables, out);
    ran.lines
}

// One packet of the table of the desk that the lists leave, written into a buffer of any length. The answer is document 01's number: 0
// where the packet is written, and 9 or 10 where that is refused, and then no byte is changed.
pub fn bravolith_write(lists: &[u8], packet: u8, out: &mut [u8]) -> u8
    ensures { (result ≡ write_refusal packet (length out.old))
        × (out.new ≡ written (packet_of (desk_at_end lists.now) packet) out.old) }
{
    match desk_writer::write(desk_runs::desk_after(lists), packet, out) {
        Ok(()) => 0,
        Err(refusal) => u8::from(refusal),
    }
}

// The lines of calls with train telegrams, as read_signals writes them.
pub fn bravolith_signals(calls: &[u8], out: &mut [u8]) -> usize
    ensures { Poured out.old 0 (signal_lines calls.now) out.new result }
{
    signal_runs::read(calls, out)
}

// Which of a listing's fixed words a text is: 1 the header with its line feed, 2 `new`, 3 `carried`, 4 `refused` with its blank, 0 none.
pub fn bravolith_word(word: &[u8]) -> u8
    ensures { result ≡ code_of (word_of word.now) }
{
    listing_reader::code_of(listing_reader::word_of(word))
}
