// The parts of a row: numbers and dates. A reader that does not find its part answers NOWHERE as the place after it, as those of `rows`
// do, so that a row is read to its end, and tested once.
ghost use Rattle.std.specs.Prelude.{◌≤◌, ◌<◌, IfSome};

use kinds::{ExpandedRawDate, Packed};
use rows::{NOWHERE, Number};
use script::naturals;
use script::naturals::Part;

pub(crate) fn year(row: &[u8], at: usize) -> Part<i16> {
    let Number { up, dn, next } = rows::signed(row, at);
    if 32767 < up || 32768 < dn {
        return Part {
            value: 0,
            next: NOWHERE,
        };
    }
    Part {
        value: sign::int::<i16>(up, dn),
        next,
    }
}

// `year month day hour`, each in the range of its type.
pub(crate) fn fields(row: &[u8], at: usize) -> Part<ExpandedRawDate> {
    let year = year(row, at);
    let month = naturals::byte8(row, rows::after(row, year.next, b' '));
    let day = naturals::byte8(row, rows::after(row, month.next, b' '));
    let hour = naturals::byte8(row, rows::after(row, day.next, b' '));
    Part {
        value: ExpandedRawDate {
            year: year.value,
            month: month.value,
            day: day.value,
            hour: hour.value,
        },
        next: hour.next,
    }
}

// The mark of a date that is handed in, behind a slash; none is 0.
fn mark(row: &[u8], at: usize) -> Part<u64>
    ensures { result.value ≤ 3 }
{
    if rows::byte(row, at) != b'/' {
        return Part { value: 0, next: at };
    }
    naturals::at_most(row, rows::after(row, at, b'/'), 3)
}

// `year month day hour`, with its mark, as a date that is handed in.
pub(crate) fn date(row: &[u8], at: usize) -> Part<Packed> {
    let year = year(row, at);
    let month = naturals::at_most(row, rows::after(row, year.next, b' '), 15);
    let day = naturals::at_most(row, rows::after(row, month.next, b' '), 31);
    let hour = naturals::at_most(row, rows::after(row, day.next, b' '), 31);
    let mark = mark(row, hour.next);
    let fields = ExpandedRawDate {
        year: year.value,
        month: month.value as u8,
        day: day.value as u8,
        hour: hour.value as u8,
    };
    Part {
        value: kinds::pack(mark.value as u16, fields),
        next: mark.next,
    }
}

// The value of a hexadecimal digit. A capital is none.
pub(crate) fn hex_digit(b: u8) -> Option<u8>
    ensures { IfSome result (λ d. d < 16) }
{
    match b {
        b'0'..=b'9' => Some(b - b'0'),
        b'a'..=b'f' => Some(b - b'a' + 10),
        _ => None,
    }
}

// A word of 64 bits in hexadecimal digits.
pub(crate) fn word(row: &[u8], at: usize) -> Part<u64> {
    let mut value: u64 = 0;
    for place in at..row.len() {
        let Some(digit) = hex_digit(row[place]) else {
            return Part { value, next: place };
        };
        if 0x0fff_ffff_ffff_ffff < value {
            return Part {
                value: 0,
                next: NOWHERE,
            };
        }
        value = value * 16 + u64::from(digit);
    }
    Part {
        value,
        next: row.len(),
    }
}
