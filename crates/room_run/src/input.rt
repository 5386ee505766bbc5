// The input of a script: what is put behind it, and its listing in a lent buffer.
ghost use Rattle.std.specs.Prelude.{◌≡◌, ◌++◌, ◌≤◌, length, replicate};
ghost use Rattle.rules.specs.Refusals.{Gives};
ghost use Rattle.rules.specs.Spelling.{put_answer, put_buffer};
ghost use Rattle.requests.specs.ListingRoom.{lent_listing};
ghost use Rattle.listing.specs.Answers.{listed_as, length_of, lent_as};

use listing::room;
use refusals::Refusal;

// A text and so many line ends at the front of the room behind the input, and how many bytes that is; nothing where the room is shorter.
pub(crate) fn put(free: &mut [u8], text: &[u8], ends: usize) -> Result<usize, Refusal>
    ensures result_value { listed_as result ≡ put_answer (Gives (text.now ++ replicate ends 10)) free.old }
    ensures free_after { free.new ≡ put_buffer (Gives (text.now ++ replicate ends 10)) free.old }
    ensures result_in_bounds { length_of result ≤ length free.old }
{
    if free.len() < text.len() || free.len() - text.len() < ends {
        return Err(Refusal::BufferShort);
    }
    spans::copy(text, free);
    let from = text.len();
    let end = from + ends;
    free[from..end].fill(b'\n');
    Ok(end)
}

// The listing of an input in a buffer whose bytes were all this one.
pub(crate) fn list(input: &[u8], buffer: &mut [u8], byte: u8) -> Result<usize, Refusal>
    ensures result_value { lent_as result ≡ put_answer (lent_listing input.now) (replicate (length buffer.old) byte) }
    ensures buffer_after { buffer.new ≡ put_buffer (lent_listing input.now) (replicate (length buffer.old) byte) }
{
    buffer.fill(byte);
    room::list(input, buffer)
}
