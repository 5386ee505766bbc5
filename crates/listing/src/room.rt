// Room for a listing (#110): how much to lend, and the listing of an input that is not too long in one lent buffer.
ghost use Rattle.std.specs.Prelude.{◌≡◌};
ghost use Rattle.rules.specs.Spelling.{put_answer, put_buffer};
ghost use Rattle.requests.specs.ListingRoom.{listing_room, lent_listing};
ghost use Rattle.listing.specs.Answers.{lent_as};

use refusals::Refusal;

// The bytes to lend for an input of so many, which are enough whatever it holds.
#[tactic(auto, unfolding(requests::specs::ListingRoom::listing_room))]
pub fn room_for(n: usize) -> Result<usize, Refusal>
    ensures { lent_as result ≡ listing_room n }
{
    if crate::INPUT_LIMIT < n {
        return Err(Refusal::TooManyBytes);
    }
    Ok(crate::MOST_FOR_EACH * n)
}

// The listing of an input at the front of a buffer, and its length; nothing where the input is too long or the buffer shorter than the
// listing.
pub fn list(input: &[u8], out: &mut [u8]) -> Result<usize, Refusal>
    ensures result_value { lent_as result ≡ put_answer (lent_listing input.now) out.old }
    ensures out_after { out.new ≡ put_buffer (lent_listing input.now) out.old }
{
    if crate::INPUT_LIMIT < input.len() {
        return Err(Refusal::TooManyBytes);
    }
    crate::listing(input, out)
}
