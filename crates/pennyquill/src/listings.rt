// The listing of an input in a buffer that the caller lends, and how much to lend.
ghost use Rattle.std.specs.Prelude.{◌≡◌};
ghost use Rattle.rules.specs.Spelling.{put_answer, put_buffer};
ghost use Rattle.requests.specs.ListingRoom.{listing_room, lent_listing};
ghost use Rattle.pennyquill.specs.Boundary.{crossed};

use crate::{PqAnswer, crossing};
use listing::room;

#[unsafe(no_mangle)]
pub extern "C" fn pq_listing_room(n: usize) -> PqAnswer
    ensures { result ≡ crossed (listing_room n) }
{
    crossing::counted(room::room_for(n))
}

#[unsafe(no_mangle)]
pub extern "C" fn pq_listing(input: &[u8], out: &mut [u8]) -> PqAnswer
    ensures value { result ≡ crossed (put_answer (lent_listing input.now) out.old) }
    ensures out_after { out.new ≡ put_buffer (lent_listing input.now) out.old }
{
    crossing::counted(room::list(input, out))
}
