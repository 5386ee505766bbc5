// The listing of `datelist`: what each line prints, from the line alone, and what the whole input prints.
#![tactic(auto)]

ghost use Rattle.std.specs.Prelude.{◌≡◌, ◌++◌, ◌≤◌, length};
ghost use Rattle.rules.specs.Words.{bytes};
ghost use Rattle.rules.specs.Refusals.{Gives};
ghost use Rattle.rules.specs.Spelling.{put_answer, put_buffer};
ghost use Rattle.rules.specs.Listing.{line_output, line_end, listing};
ghost use Rattle.digits.specs.Places.{placed};
ghost use Rattle.listing.specs.Answers.{listed_as, length_of};

use refusals::{Refusal, UNREADABLE_LINE};

mod output;
mod passes;
pub mod room;

// The byte that ends a line.
const LINE_END: u8 = 10;

// The most bytes of an input that is listed.
const INPUT_LIMIT: usize = 65535;

// No listing has more bytes for each byte of its input.
const MOST_FOR_EACH: usize = 12;

// One line's output at the front of a buffer with room for every line, and its length.
fn build(s: &[u8], out: &mut [u8]) -> usize
    requires { 40 ≤ length out.old }
    ensures value { (result ≡ length (line_output s.now)) × (result ≤ 40) }
    ensures out_after { out.new ≡ placed (line_output s.now) out.old }
{
    let Some(asked) = request::read_line(s) else {
        return output::put_refused(out, b'?', UNREADABLE_LINE);
    };
    match request::date_by(asked.kind, asked.way, s) {
        Ok(date) => output::put_date(out, asked.kind, date),
        Err(refusal) => output::put_refused(out, codes::letter(asked.kind), u8::from(refusal)),
    }
}

// What one line prints, its end included, at the front of a buffer; nothing where the buffer is shorter.
pub fn line(s: &[u8], out: &mut [u8]) -> Result<usize, Refusal>
    ensures result_value { listed_as result ≡ put_answer (Gives (line_output s.now)) out.old }
    ensures out_after { out.new ≡ put_buffer (Gives (line_output s.now)) out.old }
    ensures result_in_bounds { length_of result ≤ length out.old }
{
    let mut room = [0u8; 40];
    let n = build(s, &mut room);
    if out.len() < n {
        return Err(Refusal::BufferShort);
    }
    spans::copy(&room[..n], out);
    Ok(n)
}

// All that is printed of an input that is too long.
fn too_long(out: &mut [u8]) -> Result<usize, Refusal>
    ensures result_value { listed_as result ≡ put_answer (Gives (bytes "input too long" ++ line_end)) out.old }
    ensures out_after { out.new ≡ put_buffer (Gives (bytes "input too long" ++ line_end)) out.old }
    ensures result_in_bounds { length_of result ≤ length out.old }
{
    if out.len() < 15 {
        return Err(Refusal::BufferShort);
    }
    spans::copy(b"input too long\n", out);
    Ok(15)
}

// What `datelist` prints of an input, at the front of a buffer; nothing where the buffer is shorter.
pub fn listing(input: &[u8], out: &mut [u8]) -> Result<usize, Refusal>
    ensures result_value { listed_as result ≡ put_answer (Gives (listing input.now)) out.old }
    ensures out_after { out.new ≡ put_buffer (Gives (listing input.now)) out.old }
    ensures result_in_bounds { length_of result ≤ length out.old }
{
    if INPUT_LIMIT < input.len() {
        return too_long(out);
    }
    if passes::has_room(input, out.len()) {
        return Ok(passes::put_lines(input, out));
    }
    Err(Refusal::BufferShort)
}

// The same in a buffer that is never too short, as the program lends it: 12 bytes for each byte of the longest input, and no listing
// has more.
pub fn print(input: &[u8], out: &mut [u8]) -> usize
    requires { 786420 ≤ length out.old }
    ensures value { (result ≡ length (listing input.now)) × (result ≤ length out.old) }
    ensures out_after { out.new ≡ placed (listing input.now) out.old }
{
    listing(input, out).unwrap()
}
