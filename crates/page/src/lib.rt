// Text on a page, a sheet of which only what stands before its place has a meaning, so that eight bytes are stored whatever their count.
// Each function puts its bytes at the sheet's place and moves the place past them. Where what is stored has no room nothing is put and the
// place stays, so that no function asks anything of its caller. `LaidOn` says all of it, and what each byte is that is stored.
#![tactic(auto)]

ghost use Rattle.std.specs.Prelude.{◌≡◌, cond, [], ◌∷◌, ◌++◌, leb, length, take, drop, ◌+◌, ◌*◌, ◌/◌, ◌%◌, ◌<◌, ◌≤◌, min};
ghost use Rattle.kit.specs.Text.{ascii};
ghost use Rattle.text.specs.Decimals.{decimal};
ghost use Rattle.text.specs.Hexadecimals.{hex_digit, hexadecimal};
ghost use Rattle.text.specs.Putting.{put_on};
ghost use Rattle.page.specs.Words.{bytes_of_word, packed_word};
ghost use Rattle.page.specs.Pages.{room_for, LaidOn};
ghost use Rattle.page.specs.Packed.{Small, low_bytes, number_made, digits_before};

use text::Sheet;

// Whether so many bytes have room. Private functions ask for the room that they need, each by what it puts.
fn has_room(width: usize, page: &Sheet<'_>) -> bool
    ensures { result ≡ leb (page.now.at + width) (length page.now.buffer.now) }
{
    let size = page.buffer.len();
    width <= size && page.at <= size - width
}

// Eight bytes, the lowest first.
fn put_eight(piece: u64, page: &mut Sheet<'_>)
    requires { room_for 8 page.old }
    ensures { page.new ≡ put_on (low_bytes 8 piece) page.old }
{
    page.buffer[page.at..page.at + 8].copy_from_slice(&piece.to_le_bytes());
    page.at += 8;
}

// The lowest `count` bytes of a piece.
fn put_piece(piece: u64, count: usize, page: &mut Sheet<'_>)
    requires { count ≤ 8 }
    ensures { LaidOn 8 count (low_bytes count piece) (low_bytes 8 piece) page.old page.new }
{
    if has_room(8, page) {
        let end = page.at + count;
        put_eight(piece, page);
        page.at = end;
    }
}

// A byte where it is wanted. It is stored in any case, so that no branch is taken.
pub fn put_byte_if(byte: u8, wanted: bool, page: &mut Sheet<'_>)
    ensures { LaidOn 1 1 (cond wanted (byte ∷ []) []) (byte ∷ []) page.old page.new }
{
    if page.at < page.buffer.len() {
        page.buffer[page.at] = byte;
        page.at += wanted as usize;
    }
}

pub fn put_byte(byte: u8, page: &mut Sheet<'_>)
    ensures { LaidOn 1 1 (byte ∷ []) (byte ∷ []) page.old page.new }
{
    put_byte_if(byte, true, page);
}

// How many digits come before the last one.
#[tactic(auto, unfolding(crate::specs::Packed::digits_before))]
fn more(n: u64) -> u64
    requires { n < 65536 }
    ensures { (result ≡ digits_before n) × (result ≤ 4) }
{
    (n >= 10) as u64 + (n >= 100) as u64 + (n >= 1000) as u64 + (n >= 10000) as u64
}

// The last four digits of a number, a byte each, the first one lowest. Two pairs of digits are worked on in one number: where n is below
// 100, n * 103 / 1024 is n / 10, and 2559 is 256 * 10 - 1, so that what is taken away moves the ones up a byte and leaves the tens.
fn last_four(n: u64) -> u64
    ensures { result ≡ n / 1000 % 10 + n / 100 % 10 * 0x100 + n / 10 % 10 * 0x10000 + n % 10 * 0x1000000 }
{
    let low = n % 10000;
    let pairs = low / 100 + low % 100 * 0x10000;
    let product = pairs * 103;
    let tens = product / 0x400 % 16 + product / 0x4000000 % 16 * 0x10000;
    pairs * 0x100 - tens * 2559
}

// A number in decimal, and a byte after it where it is wanted.
fn put_digits(number: u16, after: u8, wanted: bool, page: &mut Sheet<'_>)
    ensures { LaidOn 8 (cond wanted 6 5) (decimal number ++ cond wanted (after ∷ []) []) (low_bytes 8 (number_made (decimal number ++ (after ∷ ascii "00")))) page.old page.new }
{
    let n = number as u64;
    let eight = (48 + n / 10000)
        + (last_four(n) + 0x30303030) * 0x100
        + after as u64 * 0x10000000000
        + 0x3030000000000000;
    let digits = more(n);
    put_piece(
        eight >> (8 * (4 - digits)),
        (digits + 1) as usize + wanted as usize,
        page,
    );
}

// A number in decimal, and a byte after it.
pub fn put_number(number: u16, after: u8, page: &mut Sheet<'_>)
    ensures { LaidOn 8 6 (decimal number ++ (after ∷ [])) (low_bytes 8 (number_made (decimal number ++ (after ∷ ascii "00")))) page.old page.new }
{
    put_digits(number, after, true, page);
}

// The same of a number that has most often one digit: that case is quicker here, and every other one slower.
pub fn put_short_number(number: u8, after: u8, page: &mut Sheet<'_>)
    ensures { LaidOn 8 4 (decimal number ++ (after ∷ [])) (low_bytes 8 (number_made (decimal number ++ (after ∷ ascii "00")))) page.old page.new }
{
    if number < 10 {
        put_piece(
            (48 + number as u64) + after as u64 * 0x100 + 0x30300000,
            2,
            page,
        );
    } else {
        put_digits(number as u16, after, true, page);
    }
}

// A number in decimal, and nothing after it.
pub fn put_bare_number(number: u16, page: &mut Sheet<'_>)
    ensures { LaidOn 8 5 (decimal number) (low_bytes 8 (number_made (decimal number ++ ascii "000"))) page.old page.new }
{
    put_digits(number, b'0', false, page);
}

// Eight bytes of a text from `from` on, or as many as it has, as a number, the first one lowest.
fn piece_of(words: &[u8], from: usize) -> u64
    requires { from ≤ 8 }
    ensures { (result ≡ number_made (take 8 (drop from words.now))) × Small (take 8 (drop from words.now)) }
{
    let mut piece: u64 = 0;
    for i in (from..words.len().min(from + 8)).rev() {
        piece = piece * 256 + words[i] as u64;
    }
    piece
}

// The first eight bytes of a text.
pub fn put_short_text(words: &[u8], page: &mut Sheet<'_>)
    ensures { LaidOn 8 8 (take 8 words.now) (low_bytes 8 (number_made (take 8 words.now))) page.old page.new }
{
    put_piece(piece_of(words, 0), words.len().min(8), page);
}

// A word of at most sixteen bytes: the first eight of them, the others, each the lowest first, and how many there are.
#[derive(Clone, Copy)]
pub struct Word {
    pub low: u64,
    pub high: u64,
    pub count: usize,
}

// The first sixteen bytes of a text.
#[tactic(auto, unfolding(crate::specs::Words::packed_word))]
pub fn word_of(words: &[u8]) -> Word
    ensures { result ≡ packed_word words.now }
{
    let low = piece_of(words, 0);
    let high = piece_of(words, 8);
    Word {
        low,
        high,
        count: words.len().min(16),
    }
}

pub fn put_word(word: Word, page: &mut Sheet<'_>)
    ensures { LaidOn 16 16 (bytes_of_word word) (low_bytes 8 word.low ++ low_bytes 8 word.high) page.old page.new }
{
    if has_room(16, page) {
        let end = page.at + word.count.min(16);
        put_eight(word.low, page);
        put_eight(word.high, page);
        page.at = end;
    }
}

// A digit in hexadecimal.
fn hex_digit(digit: u8) -> u8
    requires { digit < 16 }
    ensures { result ≡ hex_digit digit }
{
    b'0' + digit + (digit >= 10) as u8 * 39
}

// The two digits of a byte.
fn put_two(byte: u8, page: &mut Sheet<'_>)
    requires { room_for 2 page.old }
    ensures { page.new ≡ put_on (hex_digit (byte / 16) ∷ hex_digit (byte % 16) ∷ []) page.old }
{
    page.buffer[page.at] = hex_digit(byte / 16);
    page.buffer[page.at + 1] = hex_digit(byte % 16);
    page.at += 2;
}

// The eight digits of a number.
fn put_all_digits(number: u32, page: &mut Sheet<'_>)
    requires { room_for 8 page.old }
    ensures { page.new ≡ put_on (hexadecimal 8 number) page.old }
{
    let [first, second, third, fourth] = number.to_be_bytes();
    put_two(first, page);
    put_two(second, page);
    put_two(third, page);
    put_two(fourth, page);
}

// Eight digits of a number in hexadecimal, leading zeros too.
pub fn put_hexadecimal(number: u32, page: &mut Sheet<'_>)
    ensures { LaidOn 8 8 (hexadecimal 8 number) (hexadecimal 8 number) page.old page.new }
{
    if has_room(8, page) {
        put_all_digits(number, page);
    }
}
