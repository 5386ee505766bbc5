// One league's part of n entries that ascend: how many are its own, how many stand before them, and what it is told of a change.
ghost use Rattle.std.specs.Prelude.{◌≡◌, true, ◌&&◌, ◌||◌, ltb, length};
ghost use Rattle.rules.specs.Refusals.{Gives, ◌then◌};
ghost use Rattle.requests.specs.Entries.{some, ascends, place, standing};
ghost use Rattle.requests.specs.FieldTable.{key_in};
ghost use Rattle.requests.specs.Leagues.{key_for, own, all_owned, within_shares, share_most, own_declared};
ghost use Rattle.field_table.specs.Search.{Room, entries_in};
ghost use Rattle.field_table.specs.Views.{changed_as, entry_as};
ghost use Rattle.league_table.specs.Told.{Countable, own_after};

use crate::{FORMAT, SHARE, keys};
use field_table::Entry;
use refusals::Refusal;

// The greatest field number, and the numbers of two bytes.
const LAST_FIELD: u32 = 65535;

const FIELDS: u32 = 65536;

// Kept (point 5): (d) n ordered entries are asked for here as in `field_table::sized`, of bytes that its callers then change.
// How many entries stand before the league's.
pub fn start(b: &[u8], n: usize, league: u32) -> usize
    requires room { Room 3 n (length b.now) }
    requires b_value { ascends (key_in 3) 0 (entries_in 3 n b.now) ≡ true }
    ensures { result ≡ place (key_in 3) (key_for league 1) (entries_in 3 n b.now) }
{
    FORMAT.place_of(b, n, keys::key_for(league, 1))
}

// How many of the entries are the league's, by the places of its first key and of the one after its last.
pub fn count(b: &[u8], n: usize, league: u32) -> usize
    requires room { Room 3 n (length b.now) }
    requires b_value { ascends (key_in 3) 0 (entries_in 3 n b.now) ≡ true }
    ensures { result ≡ length (own league (entries_in 3 n b.now)) }
{
    let first = start(b, n, league);
    let past = keys::key_for(league, LAST_FIELD) + 1;
    FORMAT.place_of(b, n, past) - first
}

// Whether each entry is a league's, and neither league has more than its share.
pub fn shared(b: &[u8], n: usize) -> bool
    requires room { Room 3 n (length b.now) }
    requires b_value { ascends (key_in 3) 0 (entries_in 3 n b.now) ≡ true }
    ensures { result ≡ (all_owned (entries_in 3 n b.now) && within_shares (entries_in 3 n b.now)) }
{
    let first = count(b, n, 1);
    let second = count(b, n, 2);
    if first + second != n {
        return false;
    }
    first <= SHARE && second <= SHARE
}

// Whether a league that has so many entries may declare a key: it is there, or the league's share is not full.
pub fn may_declare(b: &[u8], n: usize, own: usize, key: usize) -> bool
    requires room { Room 3 n (length b.now) }
    requires b_value { ascends (key_in 3) 0 (entries_in 3 n b.now) ≡ true }
    ensures { result ≡ (some (standing (key_in 3) key (entries_in 3 n b.now)) || ltb own share_most) }
{
    own < SHARE || FORMAT.find(b, n, key).is_ok()
}

// What a league that had `own` of n entries is told of a change of its own: how many it has then.
pub fn after(changed: Result<usize, Refusal>, n: usize, own: usize) -> Result<usize, Refusal>
    requires { Countable own n (changed_as changed) }
    ensures { changed_as result ≡ own_after own n (changed_as changed) }
{
    let m = changed?;
    Ok(own + m - n)
}

// What a league is told of an entry of its own: the field, without the league.
pub fn without_league(entry: Result<Entry, Refusal>) -> Result<Entry, Refusal>
    ensures { entry_as result ≡ (entry_as entry then λ d. Gives (own_declared d)) }
{
    let Entry { field, kind } = entry?;
    Ok(Entry {
        field: field % FIELDS,
        kind,
    })
}
