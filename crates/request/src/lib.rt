// A line of `datelist`: what it asks for, and the date that it is answered. "Kind letter, space, way, space, rest."
#![tactic(auto)]

ghost use Rattle.std.specs.Prelude.{◌≡◌, true, ◌≤◌, ◌<◌, length, drop};
ghost use Rattle.rules.specs.Kinds.{store_with, store_guess, store};
ghost use Rattle.rules.specs.Numbers.{reads_numbers, guesses};
ghost use Rattle.rules.specs.Listing.{by_text, by_number, by_guess, has_way, date_by};
ghost use Rattle.kinds.specs.Views.{kind_of};
ghost use Rattle.request.specs.Views.{way_of, mark_by, asked_as, refusal_in};

use kinds::{Kind, Packed};
pub use line::read_line;
use number::Guess;
pub use numeral::number;
use refusals::Refusal;

mod line;
mod numeral;

// How the rest of a line is read: as text, as a number by the full decoder, as a number by the guess.
#[derive(Clone, Copy, PartialEq, Eq)]
pub enum Way {
    Text,
    Number,
    Guess,
}

// What a line asks for: its rest, from place 4 on, read as a date of this kind in this way.
#[derive(Clone, Copy, PartialEq, Eq)]
pub struct Request {
    pub kind: Kind,
    pub way: Way,
}

fn date_by_text(kind: Kind, s: &[u8]) -> Result<Packed, Refusal>
    requires { 4 ≤ length s.now }
    ensures { asked_as result ≡ store (date_by by_text (kind_of kind) (drop 4 s.now)) }
{
    by_kind::parse(kind, &s[4..])
}

fn date_by_number(kind: Kind, s: &[u8]) -> Result<Packed, Refusal>
    requires { reads_numbers (kind_of kind) ≡ true }
    ensures { asked_as result ≡ store (date_by by_number (kind_of kind) (drop 4 s.now)) }
{
    let n = number(s, 4).ok_or(Refusal::NotText)?;
    number::from_binary(kind, n).ok_or(Refusal::NotNumber)
}

fn date_by_guess(kind: Kind, s: &[u8]) -> Result<Packed, Refusal>
    requires { guesses (kind_of kind) ≡ true }
    ensures { asked_as result ≡ store_guess (date_by by_guess (kind_of kind) (drop 4 s.now)) }
{
    let n = number(s, 4).ok_or(Refusal::NotText)?;
    let Guess { date } = number::from_binary_heuristic(kind, n).ok_or(Refusal::NotNumber)?;
    Ok(date)
}

// The date that the rest of a line gives: what `read_line` answered is what this asks of its caller.
pub fn date_by(kind: Kind, way: Way, s: &[u8]) -> Result<Packed, Refusal>
    requires way_value { has_way (kind_of kind) (way_of way) ≡ true }
    requires in_bounds { 4 ≤ length s.now }
    ensures result_value { asked_as result ≡ store_with (mark_by (way_of way)) (date_by (way_of way) (kind_of kind) (drop 4 s.now)) }
    ensures result_bound { refusal_in result < 10 }
{
    match way {
        Way::Text => date_by_text(kind, s),
        Way::Number => date_by_number(kind, s),
        Way::Guess => date_by_guess(kind, s),
    }
}
