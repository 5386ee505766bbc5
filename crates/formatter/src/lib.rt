// The texts of a date, into a buffer that the caller lends: dotted, ISO, exchange, and E's ISO date alone.
#![tactic(auto)]

ghost use Rattle.std.specs.Prelude.{◌≡◌, true, ◌≤◌, ◌<◌, length};
ghost use Rattle.rules.specs.Refusals.{Gives, given};
ghost use Rattle.rules.specs.Kinds.{unpacked, handed, of_date};
ghost use Rattle.rules.specs.Spelling.{has_iso_date, dotted, iso, exchange, iso_date_alone, put_answer, put_buffer};
ghost use Rattle.digits.specs.Places.{placed};
ghost use Rattle.kinds.specs.Views.{kind_of, bits_of};
ghost use Rattle.formatter.specs.Pieces.{hour_value, text_of};
ghost use Rattle.formatter.specs.Views.{spelled_as, length_of};

use kinds::{Kind, Packed};
use pieces::{Separated, Style};
use refusals::Refusal;
use years::Year;

mod pieces;
mod styles;
mod years;

// A text at the front of a buffer, or nothing where the buffer is too short.
fn put_text(
    out: &mut [u8],
    year: Year,
    style: Style,
    month: u8,
    day: u8,
    hour: Option<Separated>,
) -> Result<usize, Refusal>
    requires { (year.digits ≤ 5) × (month < 100) × (day < 100) × (hour_value hour < 100) }
    ensures result_value { spelled_as result ≡ put_answer (Gives (text_of year style month day hour)) out.old }
    ensures out_after { out.new ≡ put_buffer (Gives (text_of year style month day hour)) out.old }
    ensures result_in_bounds { length_of result ≤ length out.old }
{
    let month_at = years::year_length(year);
    let day_at = month_at + pieces::separated_length(style, month);
    let hour_at = day_at + pieces::separated_length(style, day);
    let end = hour_at + pieces::hour_length(hour);
    if out.len() < end {
        return Err(Refusal::BufferShort);
    }
    years::put_year(out, year);
    pieces::put_separated(&mut out[month_at..], style, month);
    pieces::put_separated(&mut out[day_at..], style, day);
    pieces::put_hour(&mut out[hour_at..], hour);
    Ok(end)
}

// Year, month and day with dots between, and the hour if it is not 0.
pub fn game_fmt(kind: Kind, date: Packed, out: &mut [u8]) -> Result<usize, Refusal>
    ensures result_value { spelled_as result ≡ put_answer (of_date (kind_of kind) (bits_of date) (λ f. Gives (dotted (kind_of kind) f))) out.old }
    ensures out_after { out.new ≡ put_buffer (of_date (kind_of kind) (bits_of date) (λ f. Gives (dotted (kind_of kind) f))) out.old }
    ensures result_in_bounds { length_of result ≤ length out.old }
{
    let fields = kinds::unpack(kind, date).ok_or(Refusal::NotOfKind)?;
    let year = years::plain_year(fields.year);
    let hour = styles::dotted_hour(fields.hour);
    put_text(
        out,
        year,
        styles::dotted_style(kind),
        fields.month,
        fields.day,
        hour,
    )
}

// The dotted text of a date of the kind. It is never refused: the date is one of the kind, and no text has over 15 bytes.
pub fn put_dotted(out: &mut [u8], kind: Kind, date: Packed) -> usize
    requires { (15 ≤ length out.old) × (given (handed (kind_of kind) (bits_of date)) ≡ true) }
    ensures value { (result ≡ length (dotted (kind_of kind) (unpacked (bits_of date)))) × (result ≤ 15) }
    ensures out_after { out.new ≡ placed (dotted (kind_of kind) (unpacked (bits_of date))) out.old }
{
    game_fmt(kind, date, out).unwrap()
}

// The ISO text, its year in width 4 with the sign counted.
pub fn iso_8601(kind: Kind, date: Packed, out: &mut [u8]) -> Result<usize, Refusal>
    ensures result_value { spelled_as result ≡ put_answer (of_date (kind_of kind) (bits_of date) (λ f. Gives (iso (kind_of kind) f))) out.old }
    ensures out_after { out.new ≡ put_buffer (of_date (kind_of kind) (bits_of date) (λ f. Gives (iso (kind_of kind) f))) out.old }
    ensures result_in_bounds { length_of result ≤ length out.old }
{
    let fields = kinds::unpack(kind, date).ok_or(Refusal::NotOfKind)?;
    let year = years::iso_year(fields.year);
    let hour = styles::iso_hour(kind, fields.hour);
    put_text(out, year, styles::ISO, fields.month, fields.day, hour)
}

// The exchange text, its year in four digits, or in a sign and five.
pub fn exchange(kind: Kind, date: Packed, out: &mut [u8]) -> Result<usize, Refusal>
    ensures result_value { spelled_as result ≡ put_answer (of_date (kind_of kind) (bits_of date) (λ f. Gives (exchange (kind_of kind) f))) out.old }
    ensures out_after { out.new ≡ put_buffer (of_date (kind_of kind) (bits_of date) (λ f. Gives (exchange (kind_of kind) f))) out.old }
    ensures result_in_bounds { length_of result ≤ length out.old }
{
    let fields = kinds::unpack(kind, date).ok_or(Refusal::NotOfKind)?;
    let year = years::exchange_year(fields.year);
    let hour = styles::iso_hour(kind, fields.hour);
    put_text(out, year, styles::ISO, fields.month, fields.day, hour)
}

// E alone has the ISO date alone.
fn has_iso_date(kind: Kind) -> bool
    ensures { result ≡ has_iso_date (kind_of kind) }
{
    match kind {
        Kind::Eu5 => true,
        Kind::Raw | Kind::Date | Kind::Hour | Kind::Uniform | Kind::Vic3 => false,
    }
}

// The ISO date alone, which E has; the other kinds are refused.
pub fn date_fmt(kind: Kind, date: Packed, out: &mut [u8]) -> Result<usize, Refusal>
    ensures result_value { spelled_as result ≡ put_answer (of_date (kind_of kind) (bits_of date) (λ f. iso_date_alone (kind_of kind) f)) out.old }
    ensures out_after { out.new ≡ put_buffer (of_date (kind_of kind) (bits_of date) (λ f. iso_date_alone (kind_of kind) f)) out.old }
    ensures result_in_bounds { length_of result ≤ length out.old }
{
    let fields = kinds::unpack(kind, date).ok_or(Refusal::NotOfKind)?;
    if has_iso_date(kind) {
        let year = years::iso_year(fields.year);
        return put_text(out, year, styles::ISO, fields.month, fields.day, None);
    }
    Err(Refusal::NotOfKind)
}
