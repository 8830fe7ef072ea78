// Operations on numbers that are small enough, one or two in each function.
ghost use Rattle.std.specs.Prelude.{◌≡◌, ◌≤◌, ◌<◌, ◌^◌, pos, nat_abs, ◌+ℤ◌, ◌-ℤ◌, ◌*ℤ◌};
ghost use Rattle.std.specs.Int.Signed.{lt_z};
ghost use Rattle.integer.specs.Rounding.{floor};

use crate::Value;

pub fn times(a: Value, x: Value) -> Value
    requires { (nat_abs a.n ≤ 2 ^ 16) × (nat_abs x.n ≤ 2 ^ 24) }
    ensures { result.n ≡ a.n *ℤ x.n }
{
    Value { n: a.n * x.n }
}

pub fn plus(x: Value, y: Value) -> Value
    requires { (nat_abs x.n ≤ 2 ^ 42) × (nat_abs y.n ≤ 2 ^ 42) }
    ensures { result.n ≡ x.n +ℤ y.n }
{
    Value { n: x.n + y.n }
}

pub fn minus(x: Value, y: Value) -> Value
    requires { (nat_abs x.n ≤ 2 ^ 42) × (nat_abs y.n ≤ 2 ^ 42) }
    ensures { result.n ≡ x.n -ℤ y.n }
{
    Value { n: x.n - y.n }
}

// A number that is not below 0, times x.
pub fn scale(g: u32, x: Value) -> Value
    requires { (g ≤ 65535) × (nat_abs x.n ≤ 2 ^ 24) }
    ensures { result.n ≡ pos g *ℤ x.n }
{
    times(Value { n: i64::from(g) }, x)
}

// u / 2^BITS downward.
pub fn floor_shift<const BITS: u32>(u: Value) -> Value
    requires { BITS < 64 }
    ensures { result.n ≡ floor u.n (2 ^ BITS) }
{
    Value { n: u.n >> BITS }
}

pub fn is_below_zero(u: Value) -> bool
    ensures { result ≡ lt_z u.n (pos 0) }
{
    u.n < 0
}
