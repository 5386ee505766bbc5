// A field table in a buffer that the caller lends.
ghost use Rattle.std.specs.Prelude.{◌≡◌, true, ◌++◌, ◌*◌, ◌≤◌, length, drop};
ghost use Rattle.rules.specs.Refusals.{given};
ghost use Rattle.rules.specs.Book.{new_answer, new_buffer};
ghost use Rattle.requests.specs.FieldTable.{table1, check, entry_at, counted, declared, declare_buffer, removed, remove_buffer, lookup};
ghost use Rattle.field_table.specs.Views.{entry_as, in_bits, looked_as};
ghost use Rattle.pennyquill.specs.Boundary.{crossed, place_of};
ghost use Rattle.requests.specs.Fours.{fours};
ghost use Rattle.refusals.specs.Answers.{result_as};
ghost use Rattle.pennyquill.specs.Tables.{entry_crossed, lookup_crossed, answer_to, lookups, answered};

use crate::{PqAnswer, PqLookup, PqRecord, books, crossing};
use field_table::{Entry, Looked};
use refusals::Refusal;

// The most questions that one call answers: its value is a number of 32 bits.
const MOST_ASKED: usize = 4294967295;

// ---- answers

pub fn entry_told(entry: Result<Entry, Refusal>) -> PqRecord
    requires { place_of (entry_as entry) ≤ 4294967295 }
    ensures { result ≡ entry_crossed (entry_as entry) }
{
    match entry {
        Ok(entry) => PqRecord {
            refusal: 0,
            kind: codes::kind_code(entry.kind) as u32,
            value: 0,
            field: entry.field,
        },
        Err(refusal) => books::refused_record(refusal),
    }
}

pub fn look_crossed(looked: Result<Looked, Refusal>) -> PqLookup
    ensures { result ≡ lookup_crossed (looked_as looked) }
{
    match looked {
        Ok(Looked::Declared { kind, date }) => PqLookup {
            refusal: 0,
            kind: codes::kind_code(kind) as u32,
            value: codes::date_number(date),
            guessed: 0,
        },
        Ok(Looked::Guessed { kind, date }) => PqLookup {
            refusal: 0,
            kind: codes::kind_code(kind) as u32,
            value: codes::date_number(date),
            guessed: 1,
        },
        Err(refusal) => PqLookup {
            refusal: u8::from(refusal) as u32,
            kind: 0,
            value: 0,
            guessed: 0,
        },
    }
}

// ---- the operations

#[unsafe(no_mangle)]
pub extern "C" fn pq_table_new(table: &mut [u8]) -> PqAnswer
    ensures value { result ≡ crossed (new_answer table.old) }
    ensures table_after { table.new ≡ new_buffer table1.version table.old }
{
    books::started(field_table::new(table))
}

#[unsafe(no_mangle)]
pub extern "C" fn pq_table_check(table: &[u8]) -> PqAnswer
    ensures { result ≡ crossed (check table1 table.now) }
{
    crossing::counted(field_table::check(table))
}

#[unsafe(no_mangle)]
pub extern "C" fn pq_table_declare(table: &mut [u8], field: u32, kind: u32) -> PqAnswer
    ensures value { result ≡ crossed (counted (declared table1 table.old field kind)) }
    ensures table_after { table.new ≡ declare_buffer table1 table.old field kind }
{
    crossing::counted(field_table::declare(table, field, kind))
}

#[unsafe(no_mangle)]
pub extern "C" fn pq_table_remove(table: &mut [u8], field: u32) -> PqAnswer
    ensures value { result ≡ crossed (counted (removed table1 table.old field)) }
    ensures table_after { table.new ≡ remove_buffer table1 table.old field }
{
    crossing::counted(field_table::remove(table, field))
}

#[unsafe(no_mangle)]
pub extern "C" fn pq_table_entry(table: &[u8], place: usize) -> PqRecord
    ensures { result ≡ entry_crossed (entry_at table1 table.now place) }
{
    entry_told(field_table::entry_at(table, place))
}

#[unsafe(no_mangle)]
pub extern "C" fn pq_table_lookup(table: &[u8], field: u32, game_kind: u32, number: i32) -> PqLookup
    ensures { result ≡ lookup_crossed (in_bits (lookup table1 table.now field game_kind number)) }
{
    look_crossed(field_table::lookup(table, field, game_kind, number))
}

// ---- many numbers in one call

// The answers to the first n questions, in a table that was checked.
fn answer_all(
    table: &[u8],
    game_kind: u32,
    fields: &[u32],
    numbers: &[i32],
    out: &mut [u32],
    n: usize,
)
    requires table_value { given (check table1 table.now) ≡ true }
    requires n_in_bounds { (n ≤ length fields.now) × (n ≤ length numbers.now) × (n * 4 ≤ length out.old) }
    ensures { out.new ≡ fours (answer_to table.now game_kind fields.now numbers.now) n ++ drop (n * 4) out.old }
{
    for i in 0..n {
        let looked = look_crossed(field_table::look(table, fields[i], game_kind, numbers[i]));
        fours::put(
            out,
            i * 4,
            looked.refusal,
            looked.kind,
            looked.value,
            looked.guessed,
        );
    }
}

// How many questions were answered.
fn lookup_all(
    table: &[u8],
    game_kind: u32,
    fields: &[u32],
    numbers: &[i32],
    out: &mut [u32],
) -> Result<usize, Refusal>
    ensures value { result_as (λ n. n) result ≡ lookups table.now game_kind fields.now numbers.now out.old }
    ensures out_after { out.new ≡ answered (lookups table.now game_kind fields.now numbers.now out.old) table.now game_kind fields.now numbers.now out.old }
{
    field_table::check(table)?;
    field_table::allowed::game_kind(game_kind).ok_or(Refusal::BadEntry)?;
    let questions = fours::least(fields.len(), numbers.len());
    let n = fours::least(questions, fours::least(out.len() / 4, MOST_ASKED));
    answer_all(table, game_kind, fields, numbers, out, n);
    Ok(n)
}

#[unsafe(no_mangle)]
pub extern "C" fn pq_table_lookup_all(
    table: &[u8],
    game_kind: u32,
    fields: &[u32],
    numbers: &[i32],
    out: &mut [u32],
) -> PqAnswer
    ensures value { result ≡ crossed (lookups table.now game_kind fields.now numbers.now out.old) }
    ensures out_after { out.new ≡ answered (lookups table.now game_kind fields.now numbers.now out.old) table.now game_kind fields.now numbers.now out.old }
{
    crossing::counted(lookup_all(table, game_kind, fields, numbers, out))
}
