// The dotted part of a text, after the year: `.`, month, `.`, day, and perhaps `.` and an hour. Each function reads from a place
// of the text, and answers what `rules` reads in the rest of the text from there.
#![tactic(auto)]

ghost use Rattle.std.specs.Prelude.{◌≡◌, ◌∷◌, ◌≤◌, ℤ, drop};
ghost use Rattle.rules.specs.Words.{byte};
ghost use Rattle.rules.specs.Refusals.{Gives, ◌then◌};
ghost use Rattle.rules.specs.Text.{second_digit, one_or_two, after_dot, hour_after, dotted_part};
ghost use Rattle.dotted.specs.Views.{taken_as, hour_as, parts_as};

// A number of one or two digits, and the place of what follows it.
#[derive(Clone, Copy)]
pub struct Taken {
    pub value: u8,
    pub next: usize,
}

// Month, day and hour, as they are written: none is tested against the calendar.
#[derive(Clone, Copy)]
pub struct Parts {
    pub month: u8,
    pub day: u8,
    pub hour: u8,
}

// After a first digit: a second, or none.
fn second_digit(s: &[u8], at: usize, first: u8) -> Taken
    requires { first ≤ 9 }
    ensures { taken_as s.now (Some result) ≡ Gives (second_digit first (drop at s.now)) }
{
    match s.get(at) {
        Some(b) if b.is_ascii_digit() => Taken {
            value: first * 10 + (*b - b'0'),
            next: at + 1,
        },
        _ => Taken {
            value: first,
            next: at,
        },
    }
}

// One or two digits.
pub fn one_or_two(s: &[u8], at: usize) -> Option<Taken>
    ensures { taken_as s.now result ≡ one_or_two (drop at s.now) }
{
    match s.get(at) {
        Some(b) if b.is_ascii_digit() => Some(second_digit(s, at + 1, *b - b'0')),
        _ => None,
    }
}

// A dot, and one or two digits.
fn dotted_number(s: &[u8], at: usize) -> Option<Taken>
    ensures { taken_as s.now result ≡ (after_dot (drop at s.now) then one_or_two) }
{
    if *s.get(at)? != b'.' {
        return None;
    }
    one_or_two(s, at + 1)
}

// After the dot that follows the day: an hour that does not start with 0, and nothing more. The dot itself has been read, so the
// equation puts it back.
fn hour_at(s: &[u8], at: usize) -> Option<u8>
    ensures { hour_as result ≡ hour_after (byte "." ∷ drop at s.now) }
{
    let zero_first = *s.get(at)? == b'0';
    if zero_first {
        return None;
    }
    let hour = one_or_two(s, at)?;
    if hour.next < s.len() {
        return None;
    }
    Some(hour.value)
}

// After the day: the hour, 0 where nothing follows; or a dot and an hour.
fn hour_after(s: &[u8], at: usize) -> Option<u8>
    ensures { hour_as result ≡ hour_after (drop at s.now) }
{
    match s.get(at) {
        None => Some(0),
        Some(b'.') => hour_at(s, at + 1),
        Some(_) => None,
    }
}

// Month, day and perhaps hour, from a place to the end of the text.
pub fn dotted_part(s: &[u8], at: usize) -> Option<Parts>
    ensures { (y : ℤ) → parts_as y result ≡ dotted_part y (drop at s.now) }
{
    let month = dotted_number(s, at)?;
    let day = dotted_number(s, month.next)?;
    let hour = hour_after(s, day.next)?;
    Some(Parts {
        month: month.value,
        day: day.value,
        hour,
    })
}
