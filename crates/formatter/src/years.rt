// The year of each text: the dotted, the ISO and the exchange text have each their own.
ghost use Rattle.std.specs.Prelude.{◌≡◌, ◌++◌, ◌≤◌, length};
ghost use Rattle.rules.specs.Spelling.{filled, plain_year, iso_year, exchange_year};
ghost use Rattle.digits.specs.Places.{placed, digits_in};
ghost use Rattle.formatter.specs.Pieces.{filled_year, sign_text, year_text};

// A year's sign as its byte, if it has one; its size; and in how many digits the size is written.
#[derive(Clone, Copy)]
pub(crate) struct Year {
    pub(crate) sign: Option<u8>,
    pub(crate) size: u64,
    pub(crate) digits: usize,
}

const MINUS: u8 = b'-';

// The exchange text's alone.
const PLUS: u8 = b'+';

// The last year that the exchange text writes without a sign.
const LAST_UNSIGNED: u64 = 9999;

// How many digits: as many as the number has, and at least so many.
fn at_least(width: usize, n: u64) -> usize
    requires { (n ≤ 32768) × (width ≤ 5) }
    ensures n_value { filled width n ≡ digits_in result n }
    ensures upper_bound { result ≤ 5 }
{
    let own = digits::digits_of(n);
    if own < width {
        return width;
    }
    own
}

// A sign and, after it, a size in at least so many digits.
fn signed(sign: Option<u8>, size: u64, width: usize) -> Year
    requires { (size ≤ 32768) × (width ≤ 5) }
    ensures result_value { year_text result ≡ sign_text sign ++ filled width size }
    ensures digits_bound { result.digits ≤ 5 }
{
    Year {
        sign,
        size,
        digits: at_least(width, size),
    }
}

// A year of at least so many digits from year 0 on, and at least so many after its sign before.
fn filled_year(year: i16, above: usize, below: usize) -> Year
    requires { (above ≤ 5) × (below ≤ 5) }
    ensures result_value { year_text result ≡ filled_year above below year }
    ensures digits_bound { result.digits ≤ 5 }
{
    let h = sign::halved(year);
    if 0 < h.dn {
        return signed(Some(MINUS), h.dn, below);
    }
    signed(None, h.up, above)
}

// Unpadded.
pub(crate) fn plain_year(year: i16) -> Year
    ensures result_value { year_text result ≡ plain_year year }
    ensures digits_bound { result.digits ≤ 5 }
{
    filled_year(year, 1, 1)
}

// Width 4, the sign counted.
pub(crate) fn iso_year(year: i16) -> Year
    ensures result_value { year_text result ≡ iso_year year }
    ensures digits_bound { result.digits ≤ 5 }
{
    filled_year(year, 4, 3)
}

// Four digits for years 0 to 9999, a sign and five for all others.
pub(crate) fn exchange_year(year: i16) -> Year
    ensures result_value { year_text result ≡ exchange_year year }
    ensures digits_bound { result.digits ≤ 5 }
{
    let h = sign::halved(year);
    if LAST_UNSIGNED < h.up {
        return signed(Some(PLUS), h.up, 5);
    }
    filled_year(year, 4, 5)
}

// How many bytes a year has.
pub(crate) fn year_length(year: Year) -> usize
    requires { year.digits ≤ 5 }
    ensures value { result ≡ length (year_text year) }
    ensures upper_bound { result ≤ 6 }
{
    match year.sign {
        Some(_) => year.digits + 1,
        None => year.digits,
    }
}

pub(crate) fn put_year(out: &mut [u8], year: Year)
    requires { length (year_text year) ≤ length out.old }
    ensures { out.new ≡ placed (year_text year) out.old }
{
    match year.sign {
        Some(sign) => {
            digits::put_digits(&mut out[1..], year.size, year.digits);
            out[0] = sign;
        }
        None => digits::put_digits(out, year.size, year.digits),
    }
}
