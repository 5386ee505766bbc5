// Numbers as decimal digits, at the front of a lent buffer.
#![tactic(auto)]

ghost use Rattle.std.specs.Prelude.{◌≡◌, ◌≤◌, ◌<◌, length};
ghost use Rattle.rules.specs.Spelling.{decimal, filled};
ghost use Rattle.digits.specs.Places.{placed, digits_in};

// Two digits.
pub fn put_two(out: &mut [u8], n: u8)
    requires { (n < 100) × (2 ≤ length out.old) }
    ensures { out.new ≡ placed (filled 2 n) out.old }
{
    out[0] = b'0' + n / 10;
    out[1] = b'0' + n % 10;
}

// The last w digits of n, with zeros in front, from the last one on.
pub fn put_digits(out: &mut [u8], n: u64, w: usize)
    requires { w ≤ length out.old }
    ensures { out.new ≡ placed (digits_in w n) out.old }
{
    let mut m = n;
    for i in (0..w).rev() {
        out[i] = b'0' + (m % 10) as u8;
        m /= 10;
    }
}

// How many digits a number has. A year has at most five: those are found by tests alone.
pub fn digits_of(n: u64) -> usize
    ensures value { result ≡ length (decimal n) }
    ensures lower_bound { (1 ≤ result) × (result ≤ 20) }
{
    match n {
        ..10 => 1,
        ..100 => 2,
        ..1000 => 3,
        ..10000 => 4,
        ..100000 => 5,
        _ => n.ilog10() as usize + 1,
    }
}

// A number in as many digits as it has; how many these are.
pub fn put_decimal(out: &mut [u8], n: u64) -> usize
    requires { length (decimal n) ≤ length out.old }
    ensures value { result ≡ length (decimal n) }
    ensures out_after { out.new ≡ placed (decimal n) out.old }
{
    let count = digits_of(n);
    put_digits(out, n, count);
    count
}
