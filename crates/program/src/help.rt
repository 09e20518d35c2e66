// The page that `--help` shows, of each program. The manual pages are made of the same text.
ghost use Rattle.std.specs.Prelude.{◌≡◌};
ghost use Rattle.text.specs.Putting.{put_on};
ghost use Rattle.program.specs.Help.{help_text};

use crate::names::Program;
use text::Sheet;

const LIST_CONDITIONS: [u8; 985] =
    *b"list_conditions: lists recorded telegrams of track conditions\n\
\n\
Usage: list_conditions [--summary] [--progress] [FILE]\n\
\n\
Reads: telegrams of 26 bytes, one after another, from FILE, or from standard\n\
\x20 input where there is none or it is -. The input may have any length.\n\
Writes: `conditions 1`; for each table taken `table S K G` (step number,\n\
\x20 conditions, gap) and a line for each condition (slot, number, type, first\n\
\x20 and second word, new or carried); `refused N` for each telegram that is\n\
\x20 refused, and `refused 10` for a tail of fewer than 26 bytes; `end T`, the\n\
\x20 number of tables taken.\n\
\n\
Options:\n\
\x20 --summary   at the end, on error output: what the recording had\n\
\x20 --progress  where error output is a terminal: how far the reading is\n\
\x20 --help      this page\n\
\x20 --version   the version\n\
\n\
Failures: a read or a write that fails ends the program with a line on error\n\
\x20 output. A listing without its `end` is not whole.\n\
\n\
Example:\n\
\x20 list_conditions --summary recording.bin > listing.txt\n";

const RUN_DESK: [u8; 765] = *b"run_desk: hands lists of orders to a desk and writes its telegrams\n\
\n\
Usage: run_desk [--progress] [FILE]\n\
\n\
Reads: lists, each after its length in two bytes, high first, from FILE, or\n\
\x20 from standard input where there is none or it is -. There may be any number.\n\
Writes: for each list that is accepted the table as five telegrams, 130 bytes.\n\
\x20 On error output `refused N at list I` for each that is refused, and\n\
\x20 `short list` where the input ends inside a list.\n\
\n\
Options:\n\
\x20 --progress  where error output is a terminal: how far the reading is\n\
\x20 --help      this page\n\
\x20 --version   the version\n\
\n\
Failures: a read or a write that fails ends the program with a line on error\n\
\x20 output, and no `short list` is written then.\n\
\n\
Example:\n\
\x20 run_desk lists.bin | list_conditions\n";

const READ_SIGNALS: [u8; 878] =
    *b"read_signals: reads telegrams from the train and keeps the record of signals\n\
\n\
Usage: read_signals [--progress] [FILE]\n\
\n\
Reads: calls, each a length in two bytes, high first, and so many bytes, from\n\
\x20 FILE, or from standard input where there is none or it is -. The length\n\
\x20 FFFFh, with nothing after it, is a call with no telegram. There may be any\n\
\x20 number of calls.\n\
Writes: a line for each call: `accepted`, `missed` or `refused N`, the miss\n\
\x20 count, cab, brake position, the sixteen national systems and the list of\n\
\x20 traction systems; `short call` where the input ends inside a call.\n\
\n\
Options:\n\
\x20 --progress  where error output is a terminal: how far the reading is\n\
\x20 --help      this page\n\
\x20 --version   the version\n\
\n\
Failures: a read or a write that fails ends the program with a line on error\n\
\x20 output, and no `short call` is written then.\n\
\n\
Example:\n\
\x20 read_signals calls.bin\n";

fn help(program: Program) -> &'static [u8]
    ensures { result.now ≡ help_text program }
{
    match program {
        Program::ListConditions => &LIST_CONDITIONS,
        Program::RunDesk => &RUN_DESK,
        Program::ReadSignals => &READ_SIGNALS,
    }
}

pub fn put_help(program: Program, sheet: &mut Sheet<'_>)
    ensures { sheet.new ≡ put_on (help_text program) sheet.old }
{
    sheet.put_words(help(program));
}
