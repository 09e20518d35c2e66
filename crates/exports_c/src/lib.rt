// The functions of exports, as C calls them: each under its name there, with the clauses that it has there. A crate is a library or an
// archive for C, and not both, so that this one only hands on.
#![tactic(auto)]

ghost use Rattle.std.specs.Prelude.{◌≡◌, length};
ghost use Rattle.kit.specs.Put.{Poured};
ghost use Rattle.telegram.specs.Telegrams.{write_refusal, written};
ghost use Rattle.desk.specs.Desks.{packet_of};
ghost use Rattle.listing.specs.Listings.{listing};
ghost use Rattle.listing_length.specs.Lengths.{listing_length};
ghost use Rattle.hearing_runs.specs.Runs.{lines_heard};
ghost use Rattle.listing_reader.specs.Fixed.{word_of, code_of};
ghost use Rattle.desk_runs.specs.Runs.{run_tables, refused_lines, desk_at_end};
ghost use Rattle.signal_runs.specs.Runs.{signal_lines};

// The listing of a recording of telegrams, as list_conditions writes it.
#[unsafe(no_mangle)]
pub extern "C" fn bravolith_list(recording: &[u8], out: &mut [u8]) -> usize
    ensures { Poured out.old 0 (listing recording.now) out.new result }
{
    exports::bravolith_list(recording, out)
}

// How many bytes that listing has, so that one that fits its buffer exactly is told from one that was cut.
#[unsafe(no_mangle)]
pub extern "C" fn bravolith_list_length(recording: &[u8]) -> usize
    ensures { result ≡ listing_length recording.now }
{
    exports::bravolith_list_length(recording)
}

// The lines that such a listing has for telegrams of any length, each after its length in two bytes, which one fresh listener hears.
#[unsafe(no_mangle)]
pub extern "C" fn bravolith_hear(telegrams: &[u8], out: &mut [u8]) -> usize
    ensures { Poured out.old 0 (lines_heard telegrams.now) out.new result }
{
    exports::bravolith_hear(telegrams, out)
}

// The tables of a desk that is handed the lists, as run_desk writes them to standard output.
#[unsafe(no_mangle)]
pub extern "C" fn bravolith_run(lists: &[u8], out: &mut [u8]) -> usize
    ensures { Poured out.old 0 (run_tables lists.now) out.new result }
{
    exports::bravolith_run(lists, out)
}

// The lines on refused lists, as run_desk writes them to standard error.
#[unsafe(no_mangle)]
pub extern "C" fn bravolith_run_lines(lists: &[u8], out: &mut [u8]) -> usize
    ensures { Poured out.old 0 (refused_lines lists.now) out.new result }
{
    exports::bravolith_run_lines(lists, out)
}

// One packet of the table of the desk that the lists leave, written into a buffer of any length. The answer is document 01's number: 0
// where the packet is written, and 9 or 10 where that is refused, and then no byte is changed.
#[unsafe(no_mangle)]
pub extern "C" fn bravolith_write(lists: &[u8], packet: u8, out: &mut [u8]) -> u8
    ensures { (result ≡ write_refusal packet (length out.old))
        × (out.new ≡ written (packet_of (desk_at_end lists.now) packet) out.old) }
{
    exports::bravolith_write(lists, packet, out)
}

// The lines of calls with train telegrams, as read_signals writes them.
#[unsafe(no_mangle)]
pub extern "C" fn bravolith_signals(calls: &[u8], out: &mut [u8]) -> usize
    ensures { Poured out.old 0 (signal_lines calls.now) out.new result }
{
    exports::bravolith_signals(calls, out)
}

// Which of a listing's fixed words a text is: 1 the header with its line feed, 2 `new`, 3 `carried`, 4 `refused` with its blank, 0 none.
#[unsafe(no_mangle)]
pub extern "C" fn bravolith_word(word: &[u8]) -> u8
    ensures { result ≡ code_of (word_of word.now) }
{
    exports::bravolith_word(word)
}
