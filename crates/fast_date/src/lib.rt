// D's fast path for YYYY.M.D, YYYY.MM.D, YYYY.M.DD and YYYY.MM.DD: the eight digits of the text as one word.
#![tactic(auto)]

ghost use Rattle.std.specs.Prelude.{◌≡◌};
ghost use Rattle.util.specs.Word.{bytes_of};
ghost use Rattle.fast_date.specs.Fast.{quick, eight, quickly};

use kinds::{ExpandedRawDate, Kind, Packed};

// The date of eight bytes YYYYMMDD or none, if all are digits.
fn fast_digits(word: u64) -> Option<Option<Packed>>
    ensures { quick result ≡ eight (bytes_of 8 word) }
{
    let v = util::fast_digit_parse(word)?;
    let fields = ExpandedRawDate {
        year: (v / 10000) as i16,
        month: (v / 100 % 100) as u8,
        day: (v % 100) as u8,
        hour: 0,
    };
    Some(kinds::settle(Kind::Date, fields))
}

// The fast path: it answers exactly for the four shapes, and what the plain reader answers. Each arm makes its own word, so that it loads
// the bytes of one run together.
pub fn fast_parse(s: &[u8]) -> Option<Option<Packed>>
    ensures { quick result ≡ quickly s.now }
{
    let word = match *s {
        [a, b, c, d, b'.', e, f, b'.', g, h] => util::from_le_bytes([a, b, c, d, e, f, g, h]),
        [a, b, c, d, b'.', e, f, b'.', h] => util::from_le_bytes([a, b, c, d, e, f, b'0', h]),
        [a, b, c, d, b'.', f, b'.', g, h] => util::from_le_bytes([a, b, c, d, b'0', f, g, h]),
        [a, b, c, d, b'.', f, b'.', h] => util::from_le_bytes([a, b, c, d, b'0', f, b'0', h]),
        _ => return None,
    };
    fast_digits(word)
}
