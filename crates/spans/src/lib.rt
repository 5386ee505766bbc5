// Bytes copied to the front of a buffer, and a byte looked for in a part of a slice.
#![tactic(auto)]

ghost use Rattle.std.specs.Prelude.{◌≡◌, ◌+◌, ◌≤◌, ◌++◌, length, take, drop};
ghost use Rattle.spans.specs.Bytes.{slice, index_of};

// Puts `from` at the front of `to`. What lies behind it stays.
pub fn copy(from: &[u8], to: &mut [u8])
    requires { length from.now ≤ length to.old }
    ensures { to.new ≡ take (length from.now) from.now ++ drop (length from.now) to.old }
{
    to[..from.len()].copy_from_slice(from);
}

// The place of the first `byte` from place `from` up to place `to`, or `to` where there is none.
pub fn find(s: &[u8], from: usize, to: usize, byte: u8) -> usize
    requires { (from ≤ to) × (to ≤ length s.now) }
    ensures value { result ≡ from + index_of byte (slice from to s.now) }
    ensures bound { result ≤ to }
{
    for (i, found) in s[from..to].iter().enumerate() {
        if *found == byte {
            return from + i;
        }
    }
    to
}
