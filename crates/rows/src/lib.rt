// Rows of a file, read by place. A reader that does not find its part answers NOWHERE as the
// place after it, and every reader finds nothing there: so a row is read to its end, and tested once.
#![tactic(auto)]

ghost use Rattle.std.specs.Prelude.{◌≡◌, ◌+◌, ◌<◌, ◌≤◌, length, drop};
ghost use Rattle.rows.specs.Rows.{first_byte, after_byte, after_word, ends_row, no_number, row_digits, numbered, starts_with_digit, natural_of, signed_of, whole_of, row_length};
ghost use Rattle.rows.specs.Views.{number_as, whole_as};

// A place past the end of every slice.
// Kept (point 1): (d) readers are nested, place in place, and a row is tested once at its end; an Option would be taken apart at each.
pub const NOWHERE: usize = 0xffff_ffff_ffff_ffff;

// up - dn, of which one is 0, and the place after it.
#[derive(Clone, Copy)]
pub struct Number {
    pub up: u64,
    pub dn: u64,
    pub next: usize,
}

impl Number {
    // No number, and nothing after it.
    const NOTHING: Self = Self {
        up: 0,
        dn: 0,
        next: NOWHERE,
    };

    // A number that is not below 0.
    fn found(up: u64, next: usize) -> Self
        ensures { (result.up ≡ up) × (result.dn ≡ 0) × (result.next ≡ next) }
    {
        Self { up, dn: 0, next }
    }
}

// A number of 32 bits, and the place after it.
#[derive(Clone, Copy)]
pub struct Whole {
    pub value: i32,
    pub next: usize,
}

// The place after the end of the line that goes on at a place; the same place where none does.
pub fn next_line(s: &[u8], from: usize) -> usize
    ensures value { result ≡ from + row_length (drop from s.now) }
    ensures lower_bound { from < length s.now → (from < result) × (result ≤ length s.now) }
{
    if s.len() <= from {
        return from;
    }
    let end = spans::find(s, from, s.len(), b'\n');
    if end < s.len() { end + 1 } else { end }
}

// The byte at a place, 0 past the end.
pub fn byte(s: &[u8], at: usize) -> u8
    ensures { result ≡ first_byte (drop at s.now) }
{
    s.get(at).copied().unwrap_or(0)
}

// The place after a byte that must stand at a place.
pub fn after(s: &[u8], at: usize, b: u8) -> usize
    ensures { drop result s.now ≡ after_byte b (drop at s.now) }
{
    match s.get(at) {
        Some(found) if *found == b => at + 1,
        _ => NOWHERE,
    }
}

// The place after a word that must stand at a place.
pub fn after_word(s: &[u8], at: usize, word: &[u8]) -> usize
    ensures { drop result s.now ≡ after_word word.now (drop at s.now) }
{
    let mut place = at;
    for b in word {
        place = after(s, place, *b);
    }
    place
}

// Whether a row ends at a place: with its line end, and with nothing after it.
pub fn ends(s: &[u8], at: usize) -> bool
    ensures { result ≡ ends_row (drop at s.now) }
{
    match s.get(at) {
        Some(b'\n') => s.len() <= at + 1,
        _ => false,
    }
}

// Whether a digit stands at a place.
fn digit_at(s: &[u8], at: usize) -> bool
    ensures { result ≡ starts_with_digit (drop at s.now) }
{
    match s.get(at) {
        Some(b) => b.is_ascii_digit(),
        None => false,
    }
}

// The digits from a place on, of a value of at most 18 digits.
fn digits(s: &[u8], from: usize) -> Number
    ensures { number_as s.now result ≡ numbered (row_digits 0 (drop from s.now)) }
{
    let mut value = 0;
    for at in from..s.len() {
        let b = s[at];
        if !b.is_ascii_digit() {
            return Number::found(value, at);
        }
        if 99_999_999_999_999_999 < value {
            return Number::NOTHING;
        }
        value = value * 10 + u64::from(b - b'0');
    }
    Number::found(value, s.len())
}

// At least one digit.
pub fn natural(s: &[u8], at: usize) -> Number
    ensures { number_as s.now result ≡ natural_of (drop at s.now) }
{
    if digit_at(s, at) {
        digits(s, at)
    } else {
        Number::NOTHING
    }
}

// Digits, with or without a minus.
pub fn signed(s: &[u8], at: usize) -> Number
    ensures { number_as s.now result ≡ signed_of (drop at s.now) }
{
    if byte(s, at) != b'-' {
        return natural(s, at);
    }
    let n = natural(s, after(s, at, b'-'));
    Number {
        up: 0,
        dn: n.up,
        next: n.next,
    }
}

// A number of 32 bits.
pub fn whole32(s: &[u8], at: usize) -> Whole
    ensures { whole_as s.now result ≡ whole_of (drop at s.now) }
{
    let Number { up, dn, next } = signed(s, at);
    if up <= 2147483647 && dn <= 2147483648 {
        Whole {
            value: sign::int::<i32>(up, dn),
            next,
        }
    } else {
        Whole {
            value: 0,
            next: NOWHERE,
        }
    }
}
