// The field table: which fields of a save hold dates, and of which kind, in a buffer that the caller lends. `requests` says what each
// answer is, over the table's format; these are its operations at version 1. A declared field goes through the full decoder, an
// undeclared number through the guess, and neither takes the other's answer.
#![tactic(auto)]

ghost use Rattle.std.specs.Prelude.{◌≡◌, true};
ghost use Rattle.rules.specs.Refusals.{Gives, ◌then◌, given};
ghost use Rattle.rules.specs.Numbers.{guesses};
ghost use Rattle.rules.specs.Book.{new_answer, new_buffer};
ghost use Rattle.requests.specs.FieldTable.{table1, declared_kind, check, entry_at, counted, declared, declare_buffer, removed, remove_buffer, decode, guess, lookup};
ghost use Rattle.kinds.specs.Views.{kind_of};
ghost use Rattle.frame.specs.Views.{started_as};
ghost use Rattle.field_table.specs.Views.{checked_as, changed_as, entry_as, in_bits, looked_as};

use frame::HEAD_SIZE;
use kinds::{Kind, Packed};
use refusals::Refusal;
use sized::Format;

pub mod allowed;
pub mod by_key;
pub mod sized;

// The bytes of a field number, the most entries and the version byte of version 1.
pub const KEY_SIZE: usize = 2;

pub const MOST: usize = 2048;

pub const VERSION: u8 = 1;

// Version 1.
pub const FORMAT: Format = Format {
    key_size: KEY_SIZE,
    most: MOST,
    version: VERSION,
};

// The bytes of an entry.
const SIZE: usize = KEY_SIZE + 1;

// What an entry declares.
#[derive(Clone, Copy, PartialEq, Eq)]
pub struct Entry {
    pub field: u32,
    pub kind: Kind,
}

// The date of a number and the kind that was used: the field's own, or the game's, whose guess it was and by which the date is marked.
#[derive(Clone, Copy)]
pub enum Looked {
    Declared { kind: Kind, date: Packed },
    Guessed { kind: Kind, date: Packed },
}

// Writes an empty table. The bytes after it stay.
pub fn new(b: &mut [u8]) -> Result<(), Refusal>
    ensures result_value { started_as result ≡ new_answer b.old }
    ensures b_after { b.new ≡ new_buffer table1.version b.old }
{
    frame::new(b, FORMAT.version)
}

// Whether the buffer starts with a table, and how many entries it has.
pub fn check(b: &[u8]) -> Result<usize, Refusal>
    ensures { checked_as result ≡ check table1 b.now }
{
    FORMAT.check_of(b)
}

// ---- a table that was checked

// The number of its entries, by its length.
fn entries_in(b: &[u8]) -> usize
    requires { given (check table1 b.now) ≡ true }
    ensures { check table1 b.now ≡ Gives result }
{
    (frame::length_said(b) - 1) / SIZE
}

// What the entry at a place of it declares.
pub fn declared_at(b: &[u8], place: usize) -> Result<Entry, Refusal>
    requires { given (check table1 b.now) ≡ true }
    ensures { entry_as result ≡ entry_at table1 b.now place }
{
    if place < entries_in(b) {
        by_key::declared_at(b, HEAD_SIZE + place * SIZE, FORMAT)
    } else {
        Err(Refusal::NoRecord)
    }
}

// The full decoding of a number by the kind of an entry's code.
fn decode(code: u8, number: i32) -> Result<Looked, Refusal>
    ensures { looked_as result ≡ in_bits (declared_kind code then decode number) }
{
    let kind = allowed::entry_kind(code).ok_or(Refusal::BadEntry)?;
    let date = number::from_binary(kind, number).ok_or(Refusal::NotNumber)?;
    Ok(Looked::Declared { kind, date })
}

fn guess(kind: Kind, number: i32) -> Result<Looked, Refusal>
    requires { guesses (kind_of kind) ≡ true }
    ensures { looked_as result ≡ in_bits (guess number (kind_of kind)) }
{
    let guess = number::from_binary_heuristic(kind, number).ok_or(Refusal::NotNumber)?;
    Ok(Looked::Guessed {
        kind,
        date: guess.date,
    })
}

// A number looked up by its field, in a table that was checked: only the entries on the way to the field's are looked at.
pub fn look(b: &[u8], field: u32, game: u32, number: i32) -> Result<Looked, Refusal>
    requires { given (check table1 b.now) ≡ true }
    ensures { looked_as result ≡ in_bits (lookup table1 b.now field game number) }
{
    if !allowed::is_field(field) {
        return Err(Refusal::BadEntry);
    }
    let kind = allowed::game_kind(game).ok_or(Refusal::BadEntry)?;
    by_key::look(b, entries_in(b), FORMAT, field as usize, kind, number)
}

// ---- whatever the buffer holds

// What the entry at a place declares.
pub fn entry_at(b: &[u8], place: usize) -> Result<Entry, Refusal>
    ensures { entry_as result ≡ entry_at table1 b.now place }
{
    check(b)?;
    declared_at(b, place)
}

// Declares a field to be of a kind, by its code: in place of what was declared of it, or as a new entry.
pub fn declare(b: &mut [u8], field: u32, code: u32) -> Result<usize, Refusal>
    ensures result_value { changed_as result ≡ counted (declared table1 b.old field code) }
    ensures b_after { b.new ≡ declare_buffer table1 b.old field code }
{
    let n = check(b)?;
    if !allowed::is_field(field) {
        return Err(Refusal::BadEntry);
    }
    let kind = allowed::declared_kind(code).ok_or(Refusal::BadEntry)?;
    FORMAT.declare(b, n, &allowed::entry_bytes(field, kind))
}

// Removes a field's entry: the later ones close up, and the bytes freed are 0.
pub fn remove(b: &mut [u8], field: u32) -> Result<usize, Refusal>
    ensures result_value { changed_as result ≡ counted (removed table1 b.old field) }
    ensures b_after { b.new ≡ remove_buffer table1 b.old field }
{
    let n = check(b)?;
    if !allowed::is_field(field) {
        return Err(Refusal::BadEntry);
    }
    FORMAT.remove(b, n, field as usize)
}

// Looks a number up by its field: the full decoding of the kind that was declared, or the game kind's guess.
pub fn lookup(b: &[u8], field: u32, game: u32, number: i32) -> Result<Looked, Refusal>
    ensures { looked_as result ≡ in_bits (lookup table1 b.now field game number) }
{
    check(b)?;
    look(b, field, game, number)
}
