// The two passes over the lines of an input: the first measures what they print, the second writes it.
ghost use Rattle.std.specs.Prelude.{◌≡◌, ◌≤◌, leb, length};
ghost use Rattle.rules.specs.Listing.{line_output, input_limit};
ghost use Rattle.digits.specs.Places.{placed};
ghost use Rattle.listing.specs.Views.{printed};

// How many bytes the lines of an input print.
pub(crate) fn measure(s: &[u8]) -> usize
    requires { length s.now ≤ input_limit }
    ensures { result ≡ length (printed s.now) }
{
    let mut room = [0u8; 40];
    let mut total = 0;
    // To do (point 3): `split_inclusive` of slices gives the lines with their ends; what each prints is to be proved of these.
    let mut at = 0;
    while at < s.len() {
        let end = spans::find(s, at, s.len(), crate::LINE_END);
        total += crate::build(&s[at..end], &mut room);
        at = end + 1;
    }
    total
}

// One line's output, in a buffer with room for it, which is therefore never too short.
fn put_line(s: &[u8], out: &mut [u8]) -> usize
    requires { length (line_output s.now) ≤ length out.old }
    ensures value { result ≡ length (line_output s.now) }
    ensures out_after { out.new ≡ placed (line_output s.now) out.old }
{
    crate::line(s, out).unwrap()
}

// Whether a buffer of so many bytes has room for what the lines of an input print. One of 12 for each byte of the input always has, and
// then nothing is measured.
pub(crate) fn has_room(s: &[u8], room: usize) -> bool
    requires { length s.now ≤ input_limit }
    ensures { result ≡ leb (length (printed s.now)) room }
{
    if crate::MOST_FOR_EACH * s.len() <= room {
        return true;
    }
    measure(s) <= room
}

// What the lines of an input print, in a buffer with room for it, and its length.
pub(crate) fn put_lines(s: &[u8], out: &mut [u8]) -> usize
    requires { length (printed s.now) ≤ length out.old }
    ensures value { result ≡ length (printed s.now) }
    ensures out_after { out.new ≡ placed (printed s.now) out.old }
{
    // To do (point 3): as in `measure`.
    let mut from = 0;
    let mut filled = 0;
    while from < s.len() {
        let end = spans::find(s, from, s.len(), crate::LINE_END);
        filled += put_line(&s[from..end], &mut out[filled..]);
        from = end + 1;
    }
    filled
}
