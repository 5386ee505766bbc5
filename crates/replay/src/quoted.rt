// A text in double quotes, as a row has it: bytes 0x21 to 0x7e other than `"` and `\` are themselves, every other byte is `\xNN`.
ghost use Rattle.std.specs.Prelude.{◌<◌, ◌≤◌, ◌+◌, length, IfSome};

use crate::parts;
use rows::NOWHERE;
use script::naturals::Part;

// The byte that `\xNN` spells at a place, of which all four bytes are in the row.
fn escaped(s: &[u8], at: usize) -> Option<u8>
    requires { at < length s.now }
    ensures { IfSome result (λ _. at + 4 ≤ length s.now) }
{
    if s.len() - at <= 3 || s[at + 1] != b'x' {
        return None;
    }
    let high = parts::hex_digit(s[at + 2])?;
    let low = parts::hex_digit(s[at + 3])?;
    Some(high * 16 + low)
}

// The byte of the text at a place: itself or spelled.
fn single(s: &[u8], at: usize) -> Option<Part<u8>>
    requires { at < length s.now }
    ensures { IfSome result (λ p. at < p.next) }
{
    match s[at] {
        b'\\' => {
            let value = escaped(s, at)?;
            Some(Part {
                value,
                next: at + 4,
            })
        }
        value @ 0x21..=0x7e => Some(Part {
            value,
            next: at + 1,
        }),
        _ => None,
    }
}

// The text that begins at a place, into `out`, as its length. There is none where it is longer, or does not end.
pub(crate) fn text(s: &[u8], at: usize, out: &mut [u8]) -> Part<usize>
    ensures { result.value ≤ length out.new }
{
    let mut place = rows::after(s, at, b'"');
    let mut length = 0;
    // Kept (point 3): (d) each turn goes one byte on or four, which no `for` counts.
    while place < s.len() {
        if s[place] == b'"' {
            return Part {
                value: length,
                next: place + 1,
            };
        }
        if out.len() <= length {
            return NONE;
        }
        let Some(Part { value, next }) = single(s, place) else {
            return NONE;
        };
        out[length] = value;
        length += 1;
        place = next;
    }
    NONE
}

// No text, and nothing after it.
const NONE: Part<usize> = Part {
    value: 0,
    next: NOWHERE,
};
