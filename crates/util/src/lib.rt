// Eight ASCII digits tested and parsed as one 64-bit word, as jomini's util.rs does.
#![tactic(auto)]

ghost use Rattle.std.specs.Prelude.{◌≡◌, ◌+◌, ◌*◌, ◌^◌, ◌<◌, ◌≤◌, true, length, take};
ghost use Rattle.rules.specs.Text.{decimal_value};
ghost use Rattle.util.specs.Word.{bytes_of, all_digits};
ghost use Rattle.util.specs.Parse.{parsed, value_of};

// Two numbers as one of twice the width, the first lowest.
pub fn pair16(lo: u16, hi: u16) -> u32
    ensures { result ≡ lo + hi * 2 ^ 16 }
{
    u32::from(lo) + u32::from(hi) * 0x1_0000
}

pub fn pair32(lo: u32, hi: u32) -> u64
    ensures { result ≡ lo + hi * 2 ^ 32 }
{
    u64::from(lo) + u64::from(hi) * 0x1_0000_0000
}

// The word of eight bytes, the first lowest.
pub fn from_le_bytes(bytes: [u8; 8]) -> u64
    ensures { bytes_of 8 result ≡ bytes }
{
    u64::from_le_bytes(bytes)
}

// The word of the first eight bytes of a slice.
pub fn le_u64(s: &[u8]) -> u64
    requires { 8 ≤ length s.now }
    ensures { bytes_of 8 result ≡ take 8 s.now }
{
    from_le_bytes(*s.first_chunk().unwrap())
}

// Whether each byte of the word is an ASCII digit: its high nibble is 3, and still 3 once 6 is added to each byte.
// One addition over all eight bytes, which may wrap: a byte that carries into the next is no digit itself.
pub fn is_digits(word: u64) -> bool
    ensures { result ≡ all_digits (bytes_of 8 word) }
{
    let sum = word.wrapping_add(0x0606_0606_0606_0606);
    ((word & 0xf0f0_f0f0_f0f0_f0f0) | ((sum & 0xf0f0_f0f0_f0f0_f0f0) >> 4)) == 0x3333_3333_3333_3333
}

// The number that eight digits spell, the lowest byte first: neighbours are joined to pairs, pairs to fours, fours to the eight.
fn value_of(word: u64) -> u64
    requires { all_digits (bytes_of 8 word) ≡ true }
    ensures { result ≡ decimal_value (bytes_of 8 word) }
{
    let v = word & 0x0f0f_0f0f_0f0f_0f0f;
    let a = (v * 10 + (v >> 8)) & 0x00ff_00ff_00ff_00ff;
    let b = (a * 100 + (a >> 16)) & 0x0000_ffff_0000_ffff;
    (b * 10000 + (b >> 32)) & 0xffff_ffff
}

// Eight digits as one number, or none.
pub fn fast_digit_parse(word: u64) -> Option<u64>
    ensures value { result ≡ parsed (bytes_of 8 word) }
    ensures result_bound { value_of result < 100000000 }
{
    if is_digits(word) {
        Some(value_of(word))
    } else {
        None
    }
}
