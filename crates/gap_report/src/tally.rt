// One walk over a book's records for each kind: what is kept of those of the kind.
ghost use Rattle.std.specs.Prelude.{◌≡◌, true, Some, [], ◌≤◌, ◌<◌, nat_abs, ◌-ℤ◌};
ghost use Rattle.sign.specs.Halves.{up, dn};
ghost use Rattle.rules.specs.Refusals.{Gives, given};
ghost use Rattle.rules.specs.Kinds.{unpacked, handed};
ghost use Rattle.rules.specs.Book.{check};
ghost use Rattle.requests.specs.Both.{both};
ghost use Rattle.requests.specs.Gaps.{if_of_kind, chosen, earlier, later, longer};
ghost use Rattle.kinds.specs.Views.{kind_of, bits_of, ordered_as};
ghost use Rattle.book.specs.Views.{found_as};
ghost use Rattle.gap_report.specs.Walk.{of_book, Sound, number_for, number_at, nothing, begun, added, counted, tally};
ghost use Rattle.gap_report.specs.Views.{or_same, step_as, tallied_as, OneOf, Dated};

use book::Record;
use book_versions::any;
use kinds::{Kind, Packed};
use refusals::Refusal;
use std::cmp::Ordering;

// What the records of a kind have told so far; nothing where the count is 0. The dates have the marks that they were found with. `first` and
// `last` are the day numbers of the first and of the last record, counted from the least one, and `at` is the place of the last; `step` is
// the longest step, and `place` that of the record before it.
#[derive(Clone, Copy)]
pub(crate) struct Tally {
    pub(crate) count: u32,
    pub(crate) earliest: Packed,
    pub(crate) latest: Packed,
    pub(crate) first: u32,
    pub(crate) last: u32,
    pub(crate) at: u32,
    pub(crate) step: u32,
    pub(crate) place: u32,
}

// The day number 0, counted from the least day number that a date has, -11,960,684.
const ZERO: u32 = 11960684;

const NO_DATE: Packed = Packed { year: 0, word: 0 };

const NOTHING: Tally = Tally {
    count: 0,
    earliest: NO_DATE,
    latest: NO_DATE,
    first: ZERO,
    last: ZERO,
    at: 0,
    step: 0,
    place: 0,
};

// 0.1.1, the date whose day number is 0.
const ZERO_DATE: Packed = Packed {
    year: 0,
    word: 4224,
};

// A day number, counted from the least.
fn from_least(n: i32) -> u32
    requires { (up n ≤ 11960319) × (dn n ≤ 11960684) }
    ensures { number_at result ≡ n }
{
    (i64::from(ZERO) + i64::from(n)) as u32
}

// The day number of a date, counted from the least: from its difference to the date whose number is 0. A kind that counts no days has 0.
fn day_number(kind: Kind, date: Packed) -> u32
    requires { given (handed (kind_of kind) (bits_of date)) ≡ true }
    ensures { number_at result ≡ number_for (kind_of kind) (unpacked (bits_of date)) }
{
    match day_count::days_until(kind, ZERO_DATE, date) {
        Some(n) => from_least(n),
        None => ZERO,
    }
}

// How far one number is from another.
fn distance(a: u32, b: u32) -> u32
    ensures { result ≡ nat_abs (number_at b -ℤ number_at a) }
{
    a.abs_diff(b)
}

// The second date where the first stands after it in the order, else the first.
fn chosen(order: Ordering, f: Packed, g: Packed) -> Packed
    ensures result_value { unpacked (bits_of result) ≡ chosen (or_same (ordered_as (Some order))) (unpacked (bits_of f)) (unpacked (bits_of g)) }
    ensures one_of { OneOf (bits_of f) (bits_of g) (bits_of result) }
{
    if order.is_gt() { g } else { f }
}

fn earlier(f: Packed, g: Packed) -> Packed
    ensures result_value { unpacked (bits_of result) ≡ earlier (unpacked (bits_of f)) (unpacked (bits_of g)) }
    ensures one_of { OneOf (bits_of f) (bits_of g) (bits_of result) }
{
    chosen(kinds::order_of(f, g), f, g)
}

fn later(f: Packed, g: Packed) -> Packed
    ensures result_value { unpacked (bits_of result) ≡ later (unpacked (bits_of f)) (unpacked (bits_of g)) }
    ensures one_of { OneOf (bits_of f) (bits_of g) (bits_of result) }
{
    chosen(kinds::order_of(g, f), f, g)
}

// Kept (point 5): (d) with a kind in `Tally` and one beside each date, a call with both would ask that the two kinds are the same.
// The first record of a kind.
fn begun(kind: Kind, place: u32, date: Packed) -> Tally
    requires { given (handed (kind_of kind) (bits_of date)) ≡ true }
    ensures dated { Dated (kind_of kind) result }
    ensures result_value { tallied_as result ≡ begun (kind_of kind) (record { place = place; date = unpacked (bits_of date) }) }
{
    let number = day_number(kind, date);
    Tally {
        count: 1,
        earliest: date,
        latest: date,
        first: number,
        last: number,
        at: place,
        step: 0,
        place,
    }
}

// How long a step is, and the place of the record that stands first in the book.
#[derive(Clone, Copy)]
struct Step {
    long: u32,
    place: u32,
}

// The longer of two steps; where they are equally long the first.
fn longer(s: Step, t: Step) -> Step
    ensures { step_as result ≡ longer (step_as s) (step_as t) }
{
    if t.long <= s.long { s } else { t }
}

// One more.
fn added(t: Tally, kind: Kind, place: u32, date: Packed) -> Tally
    requires date_value { given (handed (kind_of kind) (bits_of date)) ≡ true }
    requires count_nonzero { (0 < t.count) × (t.count < 4294967295) }
    requires dated { Dated (kind_of kind) t }
    ensures dated_2 { Dated (kind_of kind) result }
    ensures result_value { tallied_as result ≡ added (kind_of kind) (tallied_as t) (record { place = place; date = unpacked (bits_of date) }) }
{
    let number = day_number(kind, date);
    let so_far = Step {
        long: t.step,
        place: t.place,
    };
    let next = Step {
        long: distance(t.last, number),
        place: t.at,
    };
    let longest = longer(so_far, next);
    Tally {
        count: t.count + 1,
        earliest: earlier(t.earliest, date),
        latest: later(t.latest, date),
        first: t.first,
        last: number,
        at: place,
        step: longest.long,
        place: longest.place,
    }
}

// A record of the kind, as the first or as one more.
fn counted(t: Tally, kind: Kind, place: u32, date: Packed) -> Tally
    requires date_value { given (handed (kind_of kind) (bits_of date)) ≡ true }
    requires count_bound { t.count < 4294967295 }
    requires dated { Dated (kind_of kind) t }
    ensures dated_2 { Dated (kind_of kind) result }
    ensures result_value { tallied_as result ≡ counted (kind_of kind) (tallied_as t) (record { place = place; date = unpacked (bits_of date) }) }
{
    if t.count == 0 {
        return begun(kind, place, date);
    }
    added(t, kind, place, date)
}

// What was found at a place, if it is of the kind.
fn seen(t: Tally, kind: Kind, place: u32, found: Result<Record, Refusal>) -> Tally
    requires sound { Sound (found_as found) }
    requires count_bound { t.count < 4294967295 }
    requires dated { Dated (kind_of kind) t }
    ensures dated_2 { Dated (kind_of kind) result }
    ensures result_value { tallied_as result ≡ tally (kind_of kind) (tallied_as t) (if_of_kind (kind_of kind) place (found_as found) []) }
{
    let Ok(record) = found else {
        return t;
    };
    if record.kind != kind {
        return t;
    }
    counted(t, kind, place, record.date)
}

// The walk for a kind over the n records of a book that was checked.
pub(crate) fn walk(b: &[u8], n: usize, kind: Kind) -> Tally
    requires { check (both b.now) b.now ≡ Gives n }
    ensures dated { Dated (kind_of kind) result }
    ensures result_value { tallied_as result ≡ tally (kind_of kind) nothing (of_book (kind_of kind) b.now) }
{
    let mut t = NOTHING;
    for i in 0..n {
        t = seen(t, kind, i as u32, any::entry(b, i));
    }
    t
}
