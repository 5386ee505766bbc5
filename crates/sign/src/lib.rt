// Signed numbers as two naturals and back: the arithmetic of years and numbers is done on the halves.
#![tactic(auto)]

ghost use Rattle.std.specs.Prelude.{◌≡◌, ℕ, ℤ, ◌+◌, ◌≤◌};
ghost use Rattle.std.proofs.Common.{rules};
ghost use Rattle.std.proofs.Math.IntN.{sub_ℕ};
ghost use Rattle.sign.specs.Halves.{up, dn, Halved};

// A number as two naturals, of which one is 0: it is up - dn. Sums and products of two 32-bit numbers stay in 64 bits.
#[derive(Clone, Copy)]
pub struct Halves {
    pub up: u64,
    pub dn: u64,
}

// A signed type whose numbers fit 64 bits: `top` is its greatest, and its least is one further from 0.
pub trait Signed {
    ghost top: { ℕ };

    ghost value: { Self → ℤ };

    fn wide(self) -> i64
        ensures value { result ≡ value self }
        ensures fits { (up result ≤ top) × (dn result ≤ top + 1) };

    // The same number in this type, where it fits.
    fn narrow(x: i64) -> Self
        requires { (up x ≤ top) × (dn x ≤ top + 1) }
        ensures { value result ≡ x };

    ghost held: { top ≤ 9223372036854775807 };
}

impl Signed for i16 {
    ghost top = { 32767 };

    ghost value = { λ x. x };

    ghost held = { Prim.search rules };

    fn wide(self) -> i64 {
        i64::from(self)
    }

    fn narrow(x: i64) -> Self {
        x as i16
    }
}

impl Signed for i32 {
    ghost top = { 2147483647 };

    ghost value = { λ x. x };

    ghost held = { Prim.search rules };

    fn wide(self) -> i64 {
        i64::from(self)
    }

    fn narrow(x: i64) -> Self {
        x as i32
    }
}

impl Signed for i64 {
    ghost top = { 9223372036854775807 };

    ghost value = { λ x. x };

    ghost held = { Prim.search rules };

    fn wide(self) -> i64 {
        self
    }

    fn narrow(x: i64) -> Self {
        x
    }
}

pub fn halved<T: Signed>(x: T) -> Halves
    ensures { Halved T.top (T.value x) result.up result.dn }
{
    let wide = x.wide();
    let size = wide.unsigned_abs();
    if wide < 0 {
        Halves { up: 0, dn: size }
    } else {
        Halves { up: size, dn: 0 }
    }
}

// u - d, where it fits.
pub fn int<T: Signed>(u: u64, d: u64) -> T
    requires { (u ≤ d + T.top) × (d ≤ u + (T.top + 1)) }
    ensures { T.value result ≡ sub_ℕ u d }
{
    let wide = if u < d {
        !((d - u - 1) as i64)
    } else {
        (u - d) as i64
    };
    T::narrow(wide)
}
