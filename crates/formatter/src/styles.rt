// What each kind writes after the year.
ghost use Rattle.std.specs.Prelude.{◌≡◌, [], ◌++◌, ℕ, ◌≤◌, ◌<◌};
ghost use Rattle.rules.specs.Words.{bytes};
ghost use Rattle.rules.specs.Spelling.{dotted_pair, dotted_hour, iso_hour_before, iso_hour};
ghost use Rattle.kinds.specs.Views.{kind_of};
ghost use Rattle.formatter.specs.Pieces.{separated, hour_value, hour_text};

use crate::pieces::{Separated, Style};
use kinds::Kind;

// A dot, and as many digits as the number has.
const UNPADDED: Style = Style {
    separator: b'.',
    wide: false,
};

// A dot and two digits.
const PADDED: Style = Style {
    separator: b'.',
    wide: true,
};

// A hyphen and two digits.
pub(crate) const ISO: Style = Style {
    separator: b'-',
    wide: true,
};

// A T and two digits.
const TIME: Style = Style {
    separator: b'T',
    wide: true,
};

// Month and day of the dotted text: U's have always two digits.
#[tactic(auto, unfolding(crate::specs::Pieces::separated))]
pub(crate) fn dotted_style(kind: Kind) -> Style
    ensures { (n : ℕ) → separated result n ≡ bytes "." ++ dotted_pair (kind_of kind) n }
{
    match kind {
        Kind::Uniform => PADDED,
        Kind::Raw | Kind::Date | Kind::Hour | Kind::Eu5 | Kind::Vic3 => UNPADDED,
    }
}

// The hour of the dotted text: none where it is 0.
pub(crate) fn dotted_hour(hour: u8) -> Option<Separated>
    ensures result_value { hour_text result ≡ dotted_hour hour }
    ensures value_value { hour_value result ≡ hour }
{
    if hour == 0 {
        return None;
    }
    Some(Separated {
        style: UNPADDED,
        value: hour,
    })
}

// R and H count their hours from 1, and have none where it is 0.
fn iso_hour_before(hour: u8) -> Option<Separated>
    ensures result_value { hour_text result ≡ iso_hour_before hour }
    ensures value_le_hour { hour_value result ≤ hour }
{
    if hour == 0 {
        return None;
    }
    Some(Separated {
        style: TIME,
        value: hour - 1,
    })
}

// What each kind adds to the ISO text. As in the original, V's hour and E's in-game hour are raised by 1 to be lowered again.
#[tactic(auto, unfolding(rules::specs::Spelling::iso_hour))]
pub(crate) fn iso_hour(kind: Kind, hour: u8) -> Option<Separated>
    requires { hour < 99 }
    ensures result_value { hour_text result ≡ iso_hour (kind_of kind) hour }
    ensures value_bound { hour_value result < 100 }
{
    match kind {
        Kind::Raw | Kind::Hour => iso_hour_before(hour),
        Kind::Date | Kind::Uniform => None,
        Kind::Eu5 => {
            let in_game = hour / 2 + 8;
            iso_hour_before(in_game + 1)
        }
        Kind::Vic3 => iso_hour_before(hour + 1),
    }
}
