// Room is made for bytes within a lent buffer, and closed up again. Each contract states every byte of the buffer.
#![tactic(auto)]

ghost use Rattle.std.specs.Prelude.{◌≡◌, ◌+◌, ◌-◌, ◌≤◌, length, drop, replicate};
ghost use Rattle.std.proofs.Math.Seq.{paste};
ghost use Rattle.shifts.specs.Shifts.{opened, closed};

// The n bytes at `from` are copied to `to`. The two places may overlap, in either order.
pub fn move_within(b: &mut [u8], from: usize, to: usize, n: usize)
    requires { (from + n ≤ length b.old) × (to + n ≤ length b.old) }
    ensures { b.new ≡ paste b.old to (drop from b.old) n }
{
    b.copy_within(from..from + n, to);
}

pub fn put(b: &mut [u8], at: usize, v: &[u8])
    requires { at + length v.now ≤ length b.old }
    ensures { b.new ≡ paste b.old at v.now (length v.now) }
{
    b[at..at + v.len()].copy_from_slice(v);
}

pub fn zero(b: &mut [u8], at: usize, n: usize)
    requires { at + n ≤ length b.old }
    ensures { b.new ≡ paste b.old at (replicate n 0) n }
{
    b[at..at + n].fill(0);
}

// The bytes v stand at `at`, and what stood from there up to `end` after them.
pub fn insert(b: &mut [u8], at: usize, end: usize, v: &[u8])
    requires { (at ≤ end) × (end + length v.now ≤ length b.old) }
    ensures { b.new ≡ opened at end v.now b.old }
{
    move_within(b, at, at + v.len(), end - at);
    put(b, at, v);
}

// The k bytes at `at` go, what followed them up to `end` moves up to there, and the k bytes freed before `end` are 0.
pub fn remove(b: &mut [u8], at: usize, end: usize, k: usize)
    requires { (at + k ≤ end) × (end ≤ length b.old) }
    ensures { b.new ≡ closed at end k b.old }
{
    move_within(b, at + k, at, end - k - at);
    zero(b, end - k, k);
}
