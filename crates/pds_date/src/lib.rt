// What the dates of the six kinds do, each method once: a kind says which it is and how a date of it is stored, and with the traits
// below `PdsDate` what it has beside. A kind lacks the methods of the traits that it does not implement.
#![tactic(auto)]

ghost use Rattle.std.specs.Prelude.{◌≡◌, ℕ, ◌≤◌, length, true};
ghost use Rattle.rules.specs.Refusals.{Gives};
ghost use Rattle.rules.specs.Kinds.{Stored, unpacked, least, greatest, field_set_hour, from_fields, stored, store_guess, store, store_like, of_date, of_dates, is_guessed, without_mark};
ghost use Rattle.rules.specs.Numbers.{reads_numbers, read_number, guesses, guess_number, writes_numbers, write_number};
ghost use Rattle.rules.specs.Days.{counts_days, add_days, difference, order};
ghost use Rattle.rules.specs.Text.{read_text};
ghost use Rattle.rules.specs.Spelling.{dotted, iso, exchange, put_answer, put_buffer};
ghost use Rattle.requests.specs.IsoReader.{read_iso};
ghost use Rattle.kinds.specs.declared.Kind.{Kind};
ghost use Rattle.kinds.specs.Views.{kind_of, bits_of, ordered_as};
ghost use Rattle.number.specs.Views.{written_as};
ghost use Rattle.day_count.specs.Views.{counted_as};
ghost use Rattle.formatter.specs.Views.{spelled_as, length_of};
ghost use Rattle.pds_date.specs.Views.{made_as, parsed_as, decoded_as, guessed_as, summed_as};

use kinds::{ExpandedRawDate, Kind, Packed};
use refusals::Refusal;
use std::cmp::Ordering;

mod shape;

// What the guess makes of a number: never taken for the full decoder's answer.
#[derive(Clone, Copy)]
pub struct Guessed<D> {
    pub date: D,
}

// A date of one of the six kinds.
// Kept (point 2): (a) the six structs, each with its two constants, are a form that document 01 names; what they repeat are these four lines.
// Kept (point 4): (d) `raw` and `of_raw` stay the trait's own: `From` would tell generic code nothing of the bits without a law beside.
pub trait PdsDate: Copy {
    ghost KIND: { Kind };

    const KIND: Kind;

    ghost bits: { Self → Stored };

    fn raw(self) -> Packed
        ensures { bits_of result ≡ bits self };

    fn of_raw(raw: Packed) -> Self
        ensures { bits result ≡ bits_of raw };

    fn least() -> Self
        ensures { bits result ≡ stored (least (kind_of KIND)) };

    fn greatest() -> Self
        ensures { bits result ≡ stored (greatest (kind_of KIND)) };

    // The component reads take the bits as they are; every method that gives the date a meaning tests them first.
    final fn year(self) -> i16
        ensures { result ≡ (bits self).year }
    {
        self.raw().year
    }

    final fn month(self) -> u8
        ensures { result ≡ (unpacked (bits self)).month }
    {
        kinds::month_of(self.raw())
    }

    final fn day(self) -> u8
        ensures { result ≡ (unpacked (bits self)).day }
    {
        kinds::day_of(self.raw())
    }

    // Whether the date was guessed, by its mark as it is stored.
    final fn is_guessed(self) -> bool
        ensures { result ≡ is_guessed (bits self) }
    {
        kinds::is_guessed(self.raw())
    }

    // The same date without its mark.
    final fn without_mark(self) -> Option<Self>
        ensures { made_as bits result ≡ without_mark (kind_of KIND) (bits self) }
    {
        let raw = kinds::without_mark(Self::KIND, self.raw())?;
        Some(Self::of_raw(raw))
    }

    // The plain reader: the length, the shape, the leading number, the rest.
    fn plain(s: &[u8]) -> Result<Self, Refusal>
        ensures { parsed_as bits result ≡ store (read_text (kind_of KIND) s.now) }
    {
        if reading::TEXT_LIMIT < s.len() {
            return Err(Refusal::TooLong);
        }
        if !shape::shape_allowed(Self::KIND, s) {
            return Err(Refusal::NotText);
        }
        let Some(lead) = scalar::to_i64_t(s) else {
            return Err(Refusal::NotText);
        };
        let Some(raw) = reading::read_rest(Self::KIND, s, lead) else {
            return Err(Refusal::NotText);
        };
        Ok(Self::of_raw(raw))
    }

    // The date that a text is read as. D has a fast path before the plain reader.
    fn parse(s: &[u8]) -> Result<Self, Refusal>
        ensures { parsed_as bits result ≡ store (read_text (kind_of KIND) s.now) }
    {
        Self::plain(s)
    }

    // The date whose ISO text this is, in the one spelling that is written.
    final fn parse_iso(s: &[u8]) -> Result<Self, Refusal>
        ensures { parsed_as bits result ≡ store (read_iso (kind_of KIND) s.now) }
    {
        if reading::TEXT_LIMIT < s.len() {
            return Err(Refusal::TooLong);
        }
        let Some(raw) = iso_reading::read(Self::KIND, s) else {
            return Err(Refusal::NotText);
        };
        Ok(Self::of_raw(raw))
    }

    final fn compare(self, other: Self) -> Option<Ordering>
        ensures { ordered_as result ≡ of_dates (kind_of KIND) (bits self) (bits other) (λ f g. Gives (order f g)) }
    {
        kinds::compare(Self::KIND, self.raw(), other.raw())
    }

    // The dotted text at the front of a buffer.
    final fn game_fmt(self, out: &mut [u8]) -> Result<usize, Refusal>
        ensures result_value { spelled_as result ≡ put_answer (of_date (kind_of KIND) (bits self) (λ f. Gives (dotted (kind_of KIND) f))) out.old }
        ensures out_after { out.new ≡ put_buffer (of_date (kind_of KIND) (bits self) (λ f. Gives (dotted (kind_of KIND) f))) out.old }
        ensures result_in_bounds { length_of result ≤ length out.old }
    {
        formatter::game_fmt(Self::KIND, self.raw(), out)
    }

    // The ISO text.
    final fn iso_8601(self, out: &mut [u8]) -> Result<usize, Refusal>
        ensures result_value { spelled_as result ≡ put_answer (of_date (kind_of KIND) (bits self) (λ f. Gives (iso (kind_of KIND) f))) out.old }
        ensures out_after { out.new ≡ put_buffer (of_date (kind_of KIND) (bits self) (λ f. Gives (iso (kind_of KIND) f))) out.old }
        ensures result_in_bounds { length_of result ≤ length out.old }
    {
        formatter::iso_8601(Self::KIND, self.raw(), out)
    }

    // The exchange text.
    final fn exchange(self, out: &mut [u8]) -> Result<usize, Refusal>
        ensures result_value { spelled_as result ≡ put_answer (of_date (kind_of KIND) (bits self) (λ f. Gives (exchange (kind_of KIND) f))) out.old }
        ensures out_after { out.new ≡ put_buffer (of_date (kind_of KIND) (bits self) (λ f. Gives (exchange (kind_of KIND) f))) out.old }
        ensures result_in_bounds { length_of result ≤ length out.old }
    {
        formatter::exchange(Self::KIND, self.raw(), out)
    }
}

// R, H and V: a field set carries an hour.
pub trait FromYmdh: PdsDate {
    final fn from_ymdh_opt(year: i16, month: u8, day: u8, hour: u8) -> Option<Self>
        ensures { made_as Self.bits result ≡ store (from_fields (kind_of Self.KIND) (record { year = year; month = month; day = day; hour = hour })) }
    {
        let fields = ExpandedRawDate {
            year,
            month,
            day,
            hour,
        };
        let raw = kinds::make(Self::KIND, fields)?;
        Some(Self::of_raw(raw))
    }

    ghost carries_hour: { (h : ℕ) → field_set_hour (kind_of Self.KIND) h ≡ h };
}

// D, U and E: a field set carries none, and its hour is 0.
pub trait FromYmd: PdsDate {
    final fn from_ymd_opt(year: i16, month: u8, day: u8) -> Option<Self>
        ensures { made_as Self.bits result ≡ store (from_fields (kind_of Self.KIND) (record { year = year; month = month; day = day; hour = 0 })) }
    {
        let fields = ExpandedRawDate {
            year,
            month,
            day,
            hour: 0,
        };
        let raw = kinds::make(Self::KIND, fields)?;
        Some(Self::of_raw(raw))
    }

    ghost carries_no_hour: { (h : ℕ) → field_set_hour (kind_of Self.KIND) h ≡ 0 };
}

// All but E, whose `hour` is the one that the game shows.
pub trait HasHour: PdsDate {
    // Another read of a component.
    final fn hour(self) -> u8
        ensures { result ≡ (unpacked (Self.bits self)).hour }
    {
        kinds::hour_of(self.raw())
    }
}

// All but U.
pub trait ReadsNumbers: PdsDate {
    // For a field that is declared as a date.
    final fn from_binary(s: i32) -> Option<Self>
        ensures { decoded_as Self.bits result ≡ store (read_number (kind_of Self.KIND) s) }
    {
        let raw = number::from_binary(Self::KIND, s)?;
        Some(Self::of_raw(raw))
    }

    ghost reads: { reads_numbers (kind_of Self.KIND) ≡ true };
}

// D, H, V and E: R and U have no guess.
pub trait HasGuess: PdsDate {
    // For a number that no one declared: its date is marked as guessed.
    final fn from_binary_heuristic(s: i32) -> Option<Guessed<Self>>
        ensures { guessed_as Self.bits result ≡ store_guess (guess_number (kind_of Self.KIND) s) }
    {
        let guess = number::from_binary_heuristic(Self::KIND, s)?;
        let date = Self::of_raw(guess.date);
        Some(Guessed { date })
    }

    ghost has_guess: { guesses (kind_of Self.KIND) ≡ true };
}

// D and H.
pub trait WritesNumbers: PdsDate {
    final fn to_binary(self) -> Option<i32>
        ensures { written_as result ≡ of_date (kind_of Self.KIND) (Self.bits self) (λ f. write_number (kind_of Self.KIND) f) }
    {
        number::to_binary(Self::KIND, self.raw())
    }

    ghost writes: { writes_numbers (kind_of Self.KIND) ≡ true };
}

// D, V and E.
pub trait CountsDays: PdsDate {
    // A new date, with the mark of the old one, which stays.
    final fn add_days(self, days: i32) -> Result<Self, Refusal>
        ensures { summed_as Self.bits result ≡ store_like (Self.bits self) (of_date (kind_of Self.KIND) (Self.bits self) (λ f. add_days (kind_of Self.KIND) f days)) }
    {
        let raw = day_count::add_days(Self::KIND, self.raw(), days)?;
        Ok(Self::of_raw(raw))
    }

    final fn days_until(self, other: Self) -> Option<i32>
        ensures { counted_as result ≡ of_dates (kind_of Self.KIND) (Self.bits self) (Self.bits other) (λ f g. difference (kind_of Self.KIND) f g) }
    {
        day_count::days_until(Self::KIND, self.raw(), other.raw())
    }

    ghost counts: { counts_days (kind_of Self.KIND) ≡ true };
}
