// The leading number of a text, and the place after it: jomini's scalar.rs, of which dates use two functions.
#![tactic(auto)]

ghost use Rattle.std.specs.Prelude.{◌≡◌, Bool, ◌≤◌, length, drop};
ghost use Rattle.scalar.specs.Number.{most63, partial_of, number_of, leading_number};
ghost use Rattle.scalar.specs.Views.{partial_as, place_of, value_of, leading_as, next_of};

// The greatest value: 63 bits.
const MOST: u64 = 0x7fff_ffff_ffff_ffff;

// A tenth of it: any greater number is too large with one more digit.
const TENTH: u64 = 922_337_203_685_477_580;

// A number, and the place of what follows it.
#[derive(Clone, Copy)]
pub struct Leading {
    pub value: i64,
    pub next: usize,
}

#[derive(Clone, Copy)]
struct Partial {
    value: u64,
    next: usize,
}

// The digits from a place on, going on from `start`. Nothing wraps: a value over 63 bits is refused as soon as it is one.
fn to_u64_partial(s: &[u8], from: usize, start: u64) -> Option<Partial>
    requires { (from ≤ length s.now) × (start ≤ 9) }
    ensures result_value { partial_as s.now result ≡ partial_of start (drop from s.now) }
    ensures result_in_bounds { (place_of result ≤ length s.now) × (value_of result ≤ most63) }
{
    let mut value = start;
    for at in from..s.len() {
        let b = s[at];
        if !b.is_ascii_digit() {
            return Some(Partial { value, next: at });
        }
        if TENTH < value {
            return None;
        }
        value = value * 10 + u64::from(b - b'0');
        if MOST < value {
            return None;
        }
    }
    Some(Partial {
        value,
        next: s.len(),
    })
}

// The number whose first byte gave its sign and its first digit.
fn number_from(s: &[u8], negative: bool, start: u64) -> Option<Leading>
    requires { (1 ≤ length s.now) × (start ≤ 9) }
    ensures result_value { leading_as s.now result ≡ number_of negative start (drop 1 s.now) }
    ensures result_in_bounds { next_of result ≤ length s.now }
{
    let Partial { value, next } = to_u64_partial(s, 1, start)?;
    let value = if negative {
        sign::int::<i64>(0, value)
    } else {
        sign::int::<i64>(value, 0)
    };
    Some(Leading { value, next })
}

// A digit, `-` or `+`, then digits; a sign alone is 0. What does not fit 63 bits is refused.
pub fn to_i64_t(s: &[u8]) -> Option<Leading>
    ensures result_value { leading_as s.now result ≡ leading_number s.now }
    ensures result_in_bounds { next_of result ≤ length s.now }
{
    let [b, ..] = s else {
        return None;
    };
    match b {
        b'-' => number_from(s, true, 0),
        b'+' => number_from(s, false, 0),
        b'0'..=b'9' => number_from(s, false, u64::from(b - b'0')),
        _ => None,
    }
}
