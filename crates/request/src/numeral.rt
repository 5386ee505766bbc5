// The number of a line: perhaps `-`, 1 to 10 digits, fitting 32 bits.
ghost use Rattle.std.specs.Prelude.{◌≡◌, drop};
ghost use Rattle.rules.specs.Words.{within};
ghost use Rattle.rules.specs.Listing.{line_number};
ghost use Rattle.request.specs.Numerals.{few_digits, whole};
ghost use Rattle.request.specs.Views.{numeral_as};

use scalar::Leading;

fn one_to_ten(n: usize) -> bool
    ensures { result ≡ within 1 10 n }
{
    1 <= n && n <= 10
}

// Whether 1 to 10 bytes follow a `-`, or stand alone. A leading number may begin with `+` too; this one may not.
#[tactic(auto, unfolding(crate::specs::Numerals::few_digits))]
fn few_digits(t: &[u8]) -> bool
    ensures { result ≡ few_digits t.now }
{
    match t {
        [] | [b'+', ..] => false,
        [b'-', digits @ ..] => one_to_ten(digits.len()),
        [..] => one_to_ten(t.len()),
    }
}

fn whole32(value: i64) -> Option<i32>
    ensures { numeral_as result ≡ whole value }
{
    i32::try_from(value).ok()
}

// A whole text as a number.
fn text_number(t: &[u8]) -> Option<i32>
    ensures { numeral_as result ≡ line_number t.now }
{
    if few_digits(t) {
        let Leading { value, next } = scalar::to_i64_t(t)?;
        if next == t.len() {
            return whole32(value);
        }
    }
    None
}

// The number that stands from a place on, to the end.
pub fn number(s: &[u8], from: usize) -> Option<i32>
    ensures { numeral_as result ≡ line_number (drop from s.now) }
{
    text_number(s.get(from..)?)
}
