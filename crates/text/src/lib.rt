// Text in a lent buffer: bytes, words and numbers in decimal, put on a sheet one after another.
#![tactic(auto)]

mod sheets;

pub use sheets::Sheet;

// What stands between words, and what ends a line.
pub const BLANK: u8 = b' ';

pub const LINE_FEED: u8 = b'\n';
