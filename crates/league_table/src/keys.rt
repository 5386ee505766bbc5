// Leagues, and the keys of their entries: the league's byte before the field number.
ghost use Rattle.std.specs.Prelude.{◌≡◌, ◌&&◌, ◌<◌};
ghost use Rattle.kinds.specs.Views.{kind_of};
ghost use Rattle.requests.specs.FieldTable.{entry_bytes};
ghost use Rattle.requests.specs.Leagues.{is_league, is_field, key_for};

use crate::KEY_SIZE;
use field_table::allowed;
use kinds::Kind;

// What the league's byte counts in a key: the numbers of the two bytes after it.
const FIELDS: usize = 65536;

// Whether a number is a league's: 1 or 2. The whole number is asked for, never its last byte.
pub fn is_league(league: u32) -> bool
    ensures { result ≡ is_league league }
{
    1 <= league && league <= 2
}

// Whether a call names a league and a field.
pub fn names_field(league: u32, field: u32) -> bool
    ensures { result ≡ (is_league league && is_field field) }
{
    is_league(league) && allowed::is_field(field)
}

pub fn key_for(league: u32, field: u32) -> usize
    ensures { result ≡ key_for league field }
{
    league as usize * FIELDS + field as usize
}

// The entry of a key and its kind.
pub fn entry_bytes(key: usize, kind: Kind) -> [u8; KEY_SIZE + 1]
    requires { key < 16777216 }
    ensures { result ≡ entry_bytes 3 (record { key = key; kind = kind_of kind }) }
{
    let [_, k2, k1, k0] = (key as u32).to_be_bytes();
    [k2, k1, k0, codes::kind_code(kind)]
}
