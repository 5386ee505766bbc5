// The hourly date (H): a day of the calendar, with an hour of 1 to 24.
#![tactic(auto)]

ghost use Rattle.std.specs.Prelude.{◌≡◌, refl};
ghost use Rattle.rules.specs.Kinds.{kH, store_like, of_date, of_dates};
ghost use Rattle.requests.specs.Hours.{add_hours, hours_between};
ghost use Rattle.hour_count.specs.Views.{counted_as};
ghost use Rattle.kinds.specs.declared.Kind.TheVariants.{Hour};
ghost use Rattle.date_hour.specs.Views.{bits, summed_as};

use kinds::{Kind, Packed};
use pds_date::{FromYmdh, HasGuess, HasHour, PdsDate, ReadsNumbers, WritesNumbers};
use refusals::Refusal;

#[derive(Clone, Copy)]
pub struct DateHour {
    pub raw: Packed,
}

impl DateHour {
    pub const LEAST: DateHour = DateHour {
        raw: Packed {
            year: -32768,
            word: 4228,
        },
    };

    pub const GREATEST: DateHour = DateHour {
        raw: Packed {
            year: 32767,
            word: 53216,
        },
    };

    // Kept (point 2): (a) H's hours and V's blocks have names of their own in document 01 and at the C boundary; the one function of both is
    // `hour_count::add`, and `until` of the next.
    // A new date, with the mark of the old one, which stays.
    pub fn add_hours(self, hours: i32) -> Result<DateHour, Refusal>
        ensures { summed_as result ≡ store_like (bits self) (of_date kH (bits self) (λ f. add_hours kH f hours)) }
    {
        let raw = hour_count::add(Kind::Hour, hour_count::HOUR, self.raw, hours)?;
        Ok(DateHour { raw })
    }

    pub fn hours_until(self, other: DateHour) -> Option<i32>
        ensures { counted_as result ≡ of_dates kH (bits self) (bits other) (λ f g. hours_between kH f g) }
    {
        hour_count::until(Kind::Hour, hour_count::HOUR, self.raw, other.raw)
    }
}

impl PdsDate for DateHour {
    ghost KIND = { Hour };

    const KIND: Kind = Kind::Hour;

    ghost bits = { bits };

    fn raw(self) -> Packed {
        self.raw
    }

    fn of_raw(raw: Packed) -> DateHour {
        DateHour { raw }
    }

    #[tactic(auto, unfolding(rules::specs::Kinds::packed, rules::specs::Kinds::least))]
    fn least() -> DateHour {
        DateHour::LEAST
    }

    #[tactic(auto, unfolding(rules::specs::Kinds::packed, rules::specs::Kinds::greatest, rules::specs::Calendar::lengths, rules::specs::Calendar::month_length))]
    fn greatest() -> DateHour {
        DateHour::GREATEST
    }
}

impl FromYmdh for DateHour {
    ghost carries_hour = { λ h. refl };
}

impl HasGuess for DateHour {
    ghost has_guess = { refl };
}

impl HasHour for DateHour {}

impl ReadsNumbers for DateHour {
    ghost reads = { refl };
}

impl WritesNumbers for DateHour {
    ghost writes = { refl };
}
