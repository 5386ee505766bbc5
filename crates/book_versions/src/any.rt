// Calls that take both versions: each is version 2's where the version byte is 2, else version 1's. And the walk: one check, many records.
ghost use Rattle.std.specs.Prelude.{◌≡◌, true, ◌++◌, ◌+◌, ◌*◌, ◌≤◌, ◌<◌, eqb, length, drop};
ghost use Rattle.std.proofs.lemmas.List.Edits.{sets};
ghost use Rattle.rules.specs.Refusals.{given};
ghost use Rattle.rules.specs.Book.{version_of, check, entry_at};
ghost use Rattle.requests.specs.Second.{version2};
ghost use Rattle.requests.specs.Both.{both};
ghost use Rattle.requests.specs.Fours.{fours};
ghost use Rattle.book.specs.Views.{checked_as, found_as};
ghost use Rattle.book_versions.specs.Walk.{numbers_of, numbers_from, walked, walked_over};

use crate::second;
use book::Record;
use frame::LENGTH_SIZE;
use refusals::Refusal;

fn is_second(b: &[u8]) -> bool
    ensures { result ≡ eqb (version_of b.now) version2.frame.version }
{
    b.get(LENGTH_SIZE).copied() == Some(second::FORMAT.frame.version)
}

// Whether the buffer starts with a book of either version, and how many records it has.
pub fn check(b: &[u8]) -> Result<usize, Refusal>
    ensures { checked_as result ≡ check (both b.now) b.now }
{
    if is_second(b) {
        second::check(b)
    } else {
        book::check(b)
    }
}

// The record at a place of a book of either version that was checked.
pub fn entry(b: &[u8], place: usize) -> Result<Record, Refusal>
    requires { given (check (both b.now) b.now) ≡ true }
    ensures { found_as result ≡ entry_at (both b.now) b.now place }
{
    if is_second(b) {
        second::entry(b, place)
    } else {
        book::entry(b, place)
    }
}

// The record at a place of whatever the buffer holds. A record of version 1 has the field number 0.
pub fn record_at(b: &[u8], place: usize) -> Result<Record, Refusal>
    ensures { found_as result ≡ entry_at (both b.now) b.now place }
{
    if is_second(b) {
        second::record_at(b, place)
    } else {
        book::record_at(b, place)
    }
}

// ---- the walk

// A record as four numbers: 0, its kind's code, its date, its field number. In a book that was checked no other is found.
fn put_numbers(out: &mut [u32], at: usize, found: Result<Record, Refusal>)
    requires { at + 4 ≤ length out.old }
    ensures { out.new ≡ sets out.old at (numbers_of (found_as found)) }
{
    match found {
        Ok(record) => fours::put(
            out,
            at,
            0,
            codes::kind_code(record.kind) as u32,
            codes::date_number(record.date),
            record.field as u32,
        ),
        Err(refusal) => fours::put(out, at, u8::from(refusal) as u32, 0, 0, 0),
    }
}

// The numbers of n records from a place on, of a book that was checked.
fn put_records(b: &[u8], place: usize, out: &mut [u32], n: usize)
    requires b_value { given (check (both b.now) b.now) ≡ true }
    requires n_bound { (place + n < 18446744073709551616) × (n * 4 ≤ length out.old) }
    ensures { out.new ≡ fours (numbers_from b.now place) n ++ drop (n * 4) out.old }
{
    for i in 0..n {
        put_numbers(out, i * 4, entry(b, place + i));
    }
}

// Checks a book of either version once, and writes its records from a place on, each as four numbers, as many as there are and as `out`
// has whole fours. Gives how many were written; at a refusal nothing is.
pub fn records(b: &[u8], place: usize, out: &mut [u32]) -> Result<usize, Refusal>
    ensures result_value { checked_as result ≡ walked b.now place (length out.old) }
    ensures out_after { out.new ≡ walked_over (walked b.now place (length out.old)) b.now place out.old }
{
    let n = check(b)?;
    let count = n.saturating_sub(place).min(out.len() / 4);
    put_records(b, place, out, count);
    Ok(count)
}
