// The listing of a plan text (document 01, "Plan text and the listing").
#![tactic(auto)]

ghost use Rattle.std.specs.Prelude.{◌≡◌, ◌≤◌, length, take, IfOk};
ghost use Rattle.listing_lines.specs.Listing.{listing_answer, listing_room};

use exact::lent::copy;
use rules::Refusal;

pub mod routines;

// No listing is longer: 24 lines of words take 1632 bytes at most, the others 207.
pub const MOST_BYTES: usize = 2048;

// The listing of a plan text, or the line of what refuses it, into the lent room: the number of its bytes, or refusal 7 where the room is
// too small.
#[tactic(auto, using(crate::proofs::Answers::by_room))]
pub fn listing(text: &[u8], room: &mut [u8]) -> Result<usize, Refusal>
    ensures answer { result ≡ listing_answer text.now room.old }
    ensures room { room.new ≡ listing_room text.now room.old }
    ensures within { IfOk result (λ bytes. (bytes ≤ length room.new) × (bytes ≡ length (take bytes room.new))) }
{
    let mut made = [0u8; MOST_BYTES];
    let bytes = routines::write_listing(text, &mut made);
    if room.len() < bytes {
        return Err(Refusal::plain(7));
    }
    copy(&made[..bytes], room);
    Ok(bytes)
}
