// How long the listing of a recording is, so that a host can tell a listing that fits its buffer exactly from one that was cut. The
// recording is listed piece by piece into a buffer of its own, so that it may have any length.
#![tactic(auto)]

ghost use Rattle.std.specs.Prelude.{◌≡◌};
ghost use Rattle.listing_length.specs.Lengths.{listing_length};

use lister::Lister;
use text::Sheet;

// How many bytes of the recording are listed at once: a hundred telegrams.
const PIECE: usize = 2600;

// How many bytes the listing of a recording has. The count stays at the greatest number that it can be.
pub fn length_of(recording: &[u8]) -> usize
    ensures { result ≡ listing_length recording.now }
{
    // room for the lines of a piece, and for the table whose packets were held before it (specs/Lengths.antt)
    let mut out = [0u8; 13419];
    let mut sheet = Sheet::on(&mut out, 0);
    listing_lines::put_header(&mut sheet);
    let mut bytes = sheet.at;
    let mut lister = Lister::begun();
    for piece in recording.chunks(PIECE) {
        sheet.at = 0;
        lister = lister.take(piece, &mut sheet);
        bytes = bytes.saturating_add(sheet.at);
    }
    sheet.at = 0;
    listing::finish(lister, &mut sheet);
    bytes.saturating_add(sheet.at)
}
