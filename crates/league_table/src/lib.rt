// A field table that two leagues share, in a buffer that the caller lends: table version 2, whose keys have the league before the field.
// `requests` says what each answer is. A league is told of its own entries alone: no answer has a count or a place of the other's.
#![tactic(auto)]

ghost use Rattle.std.specs.Prelude.{◌≡◌, true};
ghost use Rattle.rules.specs.Refusals.{Gives};
ghost use Rattle.rules.specs.Book.{new_answer, new_buffer};
ghost use Rattle.requests.specs.FieldTable.{counted, entry_bytes, remove_in, table_buffer};
ghost use Rattle.requests.specs.Leagues.{table2, is_league, own_key, shared_entries, own_of, own_entries, own_entry_at, declare_own, own_declaration, own_declare_buffer, own_removal, own_remove_buffer, own_lookup};
ghost use Rattle.kinds.specs.Views.{kind_of};
ghost use Rattle.frame.specs.Views.{started_as};
ghost use Rattle.field_table.specs.Search.{entries_in};
ghost use Rattle.field_table.specs.Views.{checked_as, changed_as, entry_as, in_bits, looked_as};

use field_table::sized::Format;
use field_table::{Entry, Looked, allowed, by_key};
use frame::HEAD_SIZE;
use kinds::Kind;
use refusals::Refusal;

pub mod keys;
pub mod moves;
pub mod own;

// The bytes of a key, the most entries, the most of one league, and the version byte of version 2.
pub const KEY_SIZE: usize = 3;

pub const MOST: usize = 2048;

pub const SHARE: usize = 1024;

pub const VERSION: u8 = 2;

// Version 2.
pub const FORMAT: Format = Format {
    key_size: KEY_SIZE,
    most: MOST,
    version: VERSION,
};

// The bytes of an entry.
const SIZE: usize = KEY_SIZE + 1;

// Writes an empty table. The bytes after it stay.
pub fn new(b: &mut [u8]) -> Result<(), Refusal>
    ensures result_value { started_as result ≡ new_answer b.old }
    ensures b_after { b.new ≡ new_buffer table2.version b.old }
{
    frame::new(b, FORMAT.version)
}

// Whether the buffer starts with a table of the two leagues, and how many entries both have.
fn entries_of(b: &[u8]) -> Result<usize, Refusal>
    ensures { checked_as result ≡ counted (shared_entries b.now) }
{
    let n = FORMAT.check_of(b)?;
    if !own::shared(b, n) {
        return Err(Refusal::BadEntry);
    }
    Ok(n)
}

// ---- a table of n entries that was checked
// Kept (point 5): (d) a declaration and a removal change the bytes, so a struct with this fact for its invariant would not outlive one.

// How many are the league's.
fn count_own(b: &[u8], n: usize, league: u32) -> Result<usize, Refusal>
    requires { counted (shared_entries b.now) ≡ Gives n }
    ensures { checked_as result ≡ counted (own_entries b.now league) }
{
    if !keys::is_league(league) {
        return Err(Refusal::BadEntry);
    }
    Ok(own::count(b, n, league))
}

// What the entry at a place among the league's declares.
fn entry_own(b: &[u8], n: usize, league: u32, place: usize) -> Result<Entry, Refusal>
    requires { counted (shared_entries b.now) ≡ Gives n }
    ensures { entry_as result ≡ own_entry_at b.now league place }
{
    if !keys::is_league(league) {
        return Err(Refusal::BadEntry);
    }
    if own::count(b, n, league) <= place {
        return Err(Refusal::NoRecord);
    }
    let at = HEAD_SIZE + (own::start(b, n, league) + place) * SIZE;
    own::without_league(by_key::declared_at(b, at, FORMAT))
}

// An entry of the league's takes the place of the one with its key, or is put in where the league's share is not full.
fn put_own(b: &mut [u8], n: usize, league: u32, key: usize, kind: Kind) -> Result<usize, Refusal>
    requires b_value { counted (shared_entries b.old) ≡ Gives n }
    requires league_value { (is_league league ≡ true) × (own_key league key ≡ true) }
    ensures result_value { changed_as result ≡ counted (own_of league (declare_own b.old league (entries_in 3 n b.old) (entry_bytes 3 (record { key = key; kind = kind_of kind })))) }
    ensures b_after { b.new ≡ table_buffer table2 0 (declare_own b.old league (entries_in 3 n b.old) (entry_bytes 3 (record { key = key; kind = kind_of kind }))) b.old }
{
    let own = own::count(b, n, league);
    if !own::may_declare(b, n, own, key) {
        return Err(Refusal::TableFull);
    }
    let changed = FORMAT.declare(b, n, &keys::entry_bytes(key, kind));
    own::after(changed, n, own)
}

fn declare_own(b: &mut [u8], n: usize, league: u32, field: u32, code: u32) -> Result<usize, Refusal>
    requires { counted (shared_entries b.old) ≡ Gives n }
    ensures result_value { changed_as result ≡ counted (own_of league (own_declaration b.old league field code)) }
    ensures b_after { b.new ≡ own_declare_buffer b.old league field code }
{
    if !keys::names_field(league, field) {
        return Err(Refusal::BadEntry);
    }
    let kind = allowed::declared_kind(code).ok_or(Refusal::BadEntry)?;
    put_own(b, n, league, keys::key_for(league, field), kind)
}

// The entry of a key of the league's is taken out.
fn take_own(b: &mut [u8], n: usize, league: u32, key: usize) -> Result<usize, Refusal>
    requires b_value { counted (shared_entries b.old) ≡ Gives n }
    requires key_value { own_key league key ≡ true }
    ensures result_value { changed_as result ≡ counted (own_of league (remove_in 3 key (entries_in 3 n b.old))) }
    ensures b_after { b.new ≡ table_buffer table2 4 (remove_in 3 key (entries_in 3 n b.old)) b.old }
{
    let own = own::count(b, n, league);
    let changed = FORMAT.remove(b, n, key);
    own::after(changed, n, own)
}

fn remove_own(b: &mut [u8], n: usize, league: u32, field: u32) -> Result<usize, Refusal>
    requires { counted (shared_entries b.old) ≡ Gives n }
    ensures result_value { changed_as result ≡ counted (own_of league (own_removal b.old league field)) }
    ensures b_after { b.new ≡ own_remove_buffer b.old league field }
{
    if !keys::names_field(league, field) {
        return Err(Refusal::BadEntry);
    }
    take_own(b, n, league, keys::key_for(league, field))
}

fn look_own(
    b: &[u8],
    n: usize,
    league: u32,
    field: u32,
    game: u32,
    number: i32,
) -> Result<Looked, Refusal>
    requires { counted (shared_entries b.now) ≡ Gives n }
    ensures { looked_as result ≡ in_bits (own_lookup b.now league field game number) }
{
    if !keys::names_field(league, field) {
        return Err(Refusal::BadEntry);
    }
    let kind = allowed::game_kind(game).ok_or(Refusal::BadEntry)?;
    let key = keys::key_for(league, field);
    by_key::look(b, n, FORMAT, key, kind, number)
}

// ---- whatever the buffer holds

// Whether the buffer starts with a table, and how many entries the league has.
pub fn check(b: &[u8], league: u32) -> Result<usize, Refusal>
    ensures { checked_as result ≡ counted (own_entries b.now league) }
{
    let n = entries_of(b)?;
    count_own(b, n, league)
}

// What the entry at a place among the league's declares: the field, without the league.
pub fn entry_at(b: &[u8], league: u32, place: usize) -> Result<Entry, Refusal>
    ensures { entry_as result ≡ own_entry_at b.now league place }
{
    let n = entries_of(b)?;
    entry_own(b, n, league, place)
}

// Declares a league's field to be of a kind, by its code: in place of what it declared of it, or as a new entry.
pub fn declare(b: &mut [u8], league: u32, field: u32, code: u32) -> Result<usize, Refusal>
    ensures result_value { changed_as result ≡ counted (own_of league (own_declaration b.old league field code)) }
    ensures b_after { b.new ≡ own_declare_buffer b.old league field code }
{
    let n = entries_of(b)?;
    declare_own(b, n, league, field, code)
}

// Removes the entry of a league's field: the later ones close up, and the bytes freed are 0.
pub fn remove(b: &mut [u8], league: u32, field: u32) -> Result<usize, Refusal>
    ensures result_value { changed_as result ≡ counted (own_of league (own_removal b.old league field)) }
    ensures b_after { b.new ≡ own_remove_buffer b.old league field }
{
    let n = entries_of(b)?;
    remove_own(b, n, league, field)
}

// Looks a number up by a league's field: the full decoding of the kind that the league declared, or the game kind's guess.
pub fn lookup(b: &[u8], league: u32, field: u32, game: u32, number: i32) -> Result<Looked, Refusal>
    ensures { looked_as result ≡ in_bits (own_lookup b.now league field game number) }
{
    let n = entries_of(b)?;
    look_own(b, n, league, field, game, number)
}
