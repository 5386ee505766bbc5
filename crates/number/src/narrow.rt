// What the narrow guess asks of a number: before it is divided, and of its fields.
ghost use Rattle.std.specs.Prelude.{◌≡◌, true, false, ◌<◌, ltb};
ghost use Rattle.sign.specs.Halves.{up};
ghost use Rattle.rules.specs.Refusals.{Refused, not_number};
ghost use Rattle.rules.specs.Kinds.{kD, kH, kE, kV};
ghost use Rattle.rules.specs.Numbers.{guesses, guessed, guess_number};
ghost use Rattle.kinds.specs.Views.{kind_of, fields_of};

use kinds::{ExpandedRawDate, Kind};

// The number of 1 January, at its first hour, of the first year that a guess can pass: -99 for D and E, -1 for H, 1 for V.
const YEAR_99_BEFORE: u64 = 42_932_760;

const YEAR_1_BEFORE: u64 = 43_791_240;

const YEAR_1: u64 = 43_808_760;

// Whether a number lies before the first year that any kind's guess can pass. A converter asks the guess of every plain number, and
// almost all of them end here: before the kind is looked at, and before the number is divided.
pub(crate) fn is_early(s: i32) -> bool
    ensures { result ≡ ltb (up s) 42932760 }
{
    let h = sign::halved(s);
    let u = h.up;
    u < YEAR_99_BEFORE
}

// Whether a number may pass the kind's guess: the hour of D and E, and the first year of H and V.
pub(crate) fn may_pass(kind: Kind, s: i32) -> bool
    requires { guesses (kind_of kind) ≡ true }
    ensures { result ≡ false → guess_number (kind_of kind) s ≡ Refused not_number }
{
    let h = sign::halved(s);
    let u = h.up;
    match kind {
        Kind::Raw | Kind::Uniform => true,
        Kind::Date => u % 24 == 0,
        Kind::Hour => YEAR_1_BEFORE <= u,
        Kind::Eu5 => u % 2 == 0,
        Kind::Vic3 => YEAR_1 <= u,
    }
}

// Year above -100, and hour 0.
fn guess_date(fields: ExpandedRawDate) -> bool
    ensures { result ≡ guessed kD (fields_of fields) }
{
    -100 < fields.year && fields.hour == 0
}

// Year above -100, and an even hour: 23 is odd here, and becomes 22 only after this test.
fn guess_eu5(fields: ExpandedRawDate) -> bool
    ensures { result ≡ guessed kE (fields_of fields) }
{
    -100 < fields.year && fields.hour % 2 == 0
}

// Year 1800 or more, or 1 January hour 1 of year 1 or -1, which stands for an event that has not occurred yet.
fn guess_hour(fields: ExpandedRawDate) -> bool
    requires { fields.hour < 24 }
    ensures { result ≡ guessed kH (fields_of fields) }
{
    let first_day = fields.month == 1 && fields.day == 1;
    let first_year = fields.year == 1 || fields.year == -1;
    1800 <= fields.year || first_day && fields.hour + 1 == 1 && first_year
}

// Year above 1700, or 1.1.1 with hour 0.
fn guess_vic3(fields: ExpandedRawDate) -> bool
    ensures { result ≡ guessed kV (fields_of fields) }
{
    let first_day = fields.month == 1 && fields.day == 1;
    1700 < fields.year || first_day && fields.hour == 0 && fields.year == 1
}

// What the kind's guess needs of a number's fields.
pub(crate) fn passes_guess(kind: Kind, fields: ExpandedRawDate) -> bool
    requires { fields.hour < 24 }
    ensures { result ≡ guessed (kind_of kind) (fields_of fields) }
{
    match kind {
        Kind::Raw | Kind::Uniform => false,
        Kind::Date => guess_date(fields),
        Kind::Hour => guess_hour(fields),
        Kind::Eu5 => guess_eu5(fields),
        Kind::Vic3 => guess_vic3(fields),
    }
}
