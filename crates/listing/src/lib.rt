// The listing of a recording: the whole of it from memory, and what stands at its end. The pieces between are those of `lister`.
#![tactic(auto)]

ghost use Rattle.std.specs.Prelude.{◌≡◌};
ghost use Rattle.kit.specs.Put.{Poured};
ghost use Rattle.text.specs.Putting.{put_on};
ghost use Rattle.listing.specs.Listings.{tail_line, listing, end_of};

use lister::Lister;
use text::Sheet;
use wire::Refusal;

// A line for a short tail.
#[tactic(auto, unfolding(crate::specs::Listings::tail_line), using(text::proofs::Putting::put_none))]
fn put_tail(kept: usize, sheet: &mut Sheet<'_>)
    ensures { sheet.new ≡ put_on (tail_line kept) sheet.old }
{
    if kept != 0 {
        listing_lines::put_refused(u8::from(Refusal::Length), sheet);
    }
}

// The end of a listing: a line for a short tail, and how many tables were taken.
#[tactic(auto, unfolding(crate::specs::Listings::end_of), using(text::proofs::Putting::put_next))]
pub fn finish(lister: Lister, sheet: &mut Sheet<'_>)
    ensures { sheet.new ≡ put_on (end_of lister) sheet.old }
{
    put_tail(lister.kept, sheet);
    listing_lines::put_end(lister.tables, sheet);
}

// The listing of a whole recording. The answer is the place past it in the lent buffer; what has no room before the buffer's end is
// dropped.
pub fn list(recording: &[u8], out: &mut [u8]) -> usize
    ensures { Poured out.old 0 (listing recording.now) out.new result }
{
    let mut sheet = Sheet::on(out, 0);
    listing_lines::put_header(&mut sheet);
    let lister = Lister::begun().take(recording, &mut sheet);
    finish(lister, &mut sheet);
    sheet.at
}
