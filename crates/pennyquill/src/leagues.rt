// A field table that two leagues share, in a buffer that the caller lends. What crosses tells a league of its own entries alone.
ghost use Rattle.std.specs.Prelude.{◌≡◌};
ghost use Rattle.rules.specs.Book.{new_answer, new_buffer};
ghost use Rattle.requests.specs.FieldTable.{counted};
ghost use Rattle.requests.specs.Leagues.{table2, own_of, own_entries, own_entry_at, own_declaration, own_declare_buffer, own_removal, own_remove_buffer, own_lookup, moved_entries, moved_buffer};
ghost use Rattle.field_table.specs.Views.{in_bits};
ghost use Rattle.pennyquill.specs.Boundary.{crossed};
ghost use Rattle.pennyquill.specs.Tables.{entry_crossed, lookup_crossed};

use crate::{PqAnswer, PqLookup, PqRecord, books, crossing, tables};
use league_table::moves;

#[unsafe(no_mangle)]
pub extern "C" fn pq_leagues_new(table: &mut [u8]) -> PqAnswer
    ensures value { result ≡ crossed (new_answer table.old) }
    ensures table_after { table.new ≡ new_buffer table2.version table.old }
{
    books::started(league_table::new(table))
}

#[unsafe(no_mangle)]
pub extern "C" fn pq_leagues_check(table: &[u8], league: u32) -> PqAnswer
    ensures { result ≡ crossed (counted (own_entries table.now league)) }
{
    crossing::counted(league_table::check(table, league))
}

#[unsafe(no_mangle)]
pub extern "C" fn pq_leagues_declare(
    table: &mut [u8],
    league: u32,
    field: u32,
    kind: u32,
) -> PqAnswer
    ensures value { result ≡ crossed (counted (own_of league (own_declaration table.old league field kind))) }
    ensures table_after { table.new ≡ own_declare_buffer table.old league field kind }
{
    crossing::counted(league_table::declare(table, league, field, kind))
}

#[unsafe(no_mangle)]
pub extern "C" fn pq_leagues_remove(table: &mut [u8], league: u32, field: u32) -> PqAnswer
    ensures value { result ≡ crossed (counted (own_of league (own_removal table.old league field))) }
    ensures table_after { table.new ≡ own_remove_buffer table.old league field }
{
    crossing::counted(league_table::remove(table, league, field))
}

#[unsafe(no_mangle)]
pub extern "C" fn pq_leagues_lookup(
    table: &[u8],
    league: u32,
    field: u32,
    game_kind: u32,
    number: i32,
) -> PqLookup
    ensures { result ≡ lookup_crossed (in_bits (own_lookup table.now league field game_kind number)) }
{
    tables::look_crossed(league_table::lookup(table, league, field, game_kind, number))
}

#[unsafe(no_mangle)]
pub extern "C" fn pq_leagues_entry(table: &[u8], league: u32, place: usize) -> PqRecord
    ensures { result ≡ entry_crossed (own_entry_at table.now league place) }
{
    tables::entry_told(league_table::entry_at(table, league, place))
}

// A version 1 table, into a second buffer as one of league 1 alone.
#[unsafe(no_mangle)]
pub extern "C" fn pq_leagues_from_table(from: &[u8], to: &mut [u8]) -> PqAnswer
    ensures value { result ≡ crossed (counted (moved_entries from.now to.old)) }
    ensures to_after { to.new ≡ moved_buffer from.now to.old }
{
    crossing::counted(moves::from_table(from, to))
}
