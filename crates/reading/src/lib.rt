// A text after its leading number, for every kind: nothing follows and it is a number text, or the dotted part follows, which the
// crate `dotted` reads.
#![tactic(auto)]

ghost use Rattle.std.specs.Prelude.{◌≡◌, drop};
ghost use Rattle.rules.specs.Words.{fits32};
ghost use Rattle.rules.specs.Refusals.{◌then◌, not_text};
ghost use Rattle.rules.specs.Kinds.{settled, store};
ghost use Rattle.rules.specs.Text.{reads_number_texts, number_text, text_fields};
ghost use Rattle.kinds.specs.Views.{kind_of, made_as};

use dotted::Parts;
use kinds::{ExpandedRawDate, Kind, Packed};
use scalar::Leading;

// The most bytes that a text may have.
pub const TEXT_LIMIT: usize = 64;

// R, V and E refuse a number text.
fn reads_number_texts(kind: Kind) -> bool
    ensures { result ≡ reads_number_texts (kind_of kind) }
{
    match kind {
        Kind::Date | Kind::Hour | Kind::Uniform => true,
        Kind::Raw | Kind::Eu5 | Kind::Vic3 => false,
    }
}

// Whether 32 bits hold a number.
pub fn fits32(value: i64) -> bool
    ensures { result ≡ fits32 value }
{
    -2147483648 <= value && value <= 2147483647
}

// A number text, its hour unchanged. The number must fit 32 bits.
fn number_text(kind: Kind, value: i64) -> Option<Packed>
    ensures { made_as not_text result ≡ store (number_text (kind_of kind) value then λ f. settled (kind_of kind) not_text f) }
{
    if !reads_number_texts(kind) {
        return None;
    }
    if !fits32(value) {
        return None;
    }
    let fields = number::number_fields(value as i32)?;
    kinds::settle(kind, fields)
}

// The date of what a text says, its year being any number: one that does not fit 16 bits is no date's.
pub fn settle_year(kind: Kind, year: i64, parts: Parts) -> Option<Packed>
    ensures { made_as not_text result ≡ store (settled (kind_of kind) not_text (record { year = year; month = parts.month; day = parts.day; hour = parts.hour })) }
{
    // Kept (point 4): (a) the must-fail edit `year_of_15_bits` lowers this bound, which `try_from` would hide.
    if year < -32768 {
        return None;
    }
    if 32767 < year {
        return None;
    }
    let fields = ExpandedRawDate {
        year: year as i16,
        month: parts.month,
        day: parts.day,
        hour: parts.hour,
    };
    kinds::settle(kind, fields)
}

// The date of a text with this leading number.
pub fn read_rest(kind: Kind, s: &[u8], lead: Leading) -> Option<Packed>
    ensures { made_as not_text result ≡ store (text_fields (kind_of kind) (record { value = lead.value; rest = drop lead.next s.now }) then λ f. settled (kind_of kind) not_text f) }
{
    if s.len() <= lead.next {
        return number_text(kind, lead.value);
    }
    let parts = dotted::dotted_part(s, lead.next)?;
    settle_year(kind, lead.value, parts)
}
