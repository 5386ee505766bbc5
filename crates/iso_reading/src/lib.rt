// The ISO text of a date read back, over the kind: the one date that the text could name is found by its numbers, read as loosely as those
// of a dotted text, and then written and compared with the text, byte by byte. So only the spelling that is written is read.
#![tactic(auto)]

ghost use Rattle.std.specs.Prelude.{◌≡◌, true, ◌<◌, ℤ, drop};
ghost use Rattle.rules.specs.Words.{same_bytes};
ghost use Rattle.rules.specs.Refusals.{given, not_text};
ghost use Rattle.rules.specs.Kinds.{unpacked, handed, store};
ghost use Rattle.rules.specs.Text.{one_or_two};
ghost use Rattle.rules.specs.Spelling.{iso};
ghost use Rattle.requests.specs.IsoReader.{named_hour, iso_hour_after, iso_part, named};
ghost use Rattle.kinds.specs.Views.{kind_of, bits_of, made_as};
ghost use Rattle.dotted.specs.Views.{taken_as, hour_as, parts_as};

use dotted::{Parts, Taken};
use kinds::{Kind, Packed};

// The hour of the date by the hour in its text: R and H write hour - 1, V its hour, E its in-game hour, of which this is the even component.
fn named_hour(kind: Kind, hour: u8) -> u8
    requires { hour < 100 }
    ensures { result ≡ named_hour (kind_of kind) hour }
{
    match kind {
        Kind::Raw | Kind::Hour => hour + 1,
        Kind::Date | Kind::Uniform | Kind::Vic3 => hour,
        Kind::Eu5 => hour.saturating_sub(8) * 2,
    }
}

// The number after one byte, whatever that is.
fn next_number(s: &[u8], at: usize) -> Option<Taken>
    ensures { taken_as s.now result ≡ one_or_two (drop 1 (drop at s.now)) }
{
    s.get(at)?;
    dotted::one_or_two(s, at + 1)
}

// The hour after the day, 0 where nothing follows.
fn hour_after(kind: Kind, s: &[u8], at: usize) -> Option<u8>
    ensures { hour_as result ≡ iso_hour_after (kind_of kind) (drop at s.now) }
{
    if s.len() <= at {
        return Some(0);
    }
    let hour = next_number(s, at)?;
    Some(named_hour(kind, hour.value))
}

// Month, day and perhaps hour, each after one byte.
fn iso_part(kind: Kind, s: &[u8], at: usize) -> Option<Parts>
    ensures { (y : ℤ) → parts_as y result ≡ iso_part (kind_of kind) y (drop at s.now) }
{
    let month = next_number(s, at)?;
    let day = next_number(s, month.next)?;
    let hour = hour_after(kind, s, day.next)?;
    Some(Parts {
        month: month.value,
        day: day.value,
        hour,
    })
}

// Whether this is the ISO text of a date of the kind.
fn is_iso_of(kind: Kind, date: Packed, s: &[u8]) -> bool
    ensures { given (handed (kind_of kind) (bits_of date)) ≡ true → result ≡ same_bytes s.now (iso (kind_of kind) (unpacked (bits_of date))) }
{
    let mut own = [0u8; 16];
    match formatter::iso_8601(kind, date, &mut own) {
        Ok(n) => slices::same(s, &own[..n]),
        Err(_) => false,
    }
}

// The date that a text names, or none. How long the text may be, its callers say.
pub fn read(kind: Kind, s: &[u8]) -> Option<Packed>
    ensures { made_as not_text result ≡ store (named (kind_of kind) s.now) }
{
    let lead = scalar::to_i64_t(s)?;
    let parts = iso_part(kind, s, lead.next)?;
    let date = reading::settle_year(kind, lead.value, parts)?;
    if is_iso_of(kind, date, s) {
        return Some(date);
    }
    None
}
