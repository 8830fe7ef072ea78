// From an f32 to the nearest whole number of its multiple by a power of two. Contracts cite specs/Worth.antt
// and specs/Steps.antt.
ghost use Rattle.std.specs.Prelude.{◌≡◌, cond, ◌+◌, ◌-◌, ◌*◌, ◌/◌, ◌^◌, ◌<◌, ◌≤◌, T};
ghost use Rattle.integer.specs.Rounding.{nearest as Nearest};
ghost use Rattle.refusal.specs.Numbers.{code_of, number_of};
ghost use Rattle.floats.specs.Worth.{finite as Finite, size, unit, above};
ghost use Rattle.floats.specs.Steps.{Scales, Counted};

use integer::Value;
use refusal::Refusal;

// Neither a NaN nor an infinity: 0 times one of these is a NaN, which differs from itself.
fn is_finite(x: f32) -> bool
    ensures { result ≡ Finite x }
{
    let z = x * 0.0;
    z == z
}

// A test: x is finite, or refused.
pub(crate) fn finite(refusal: Refusal, x: f32) -> Result<(), Refusal>
    ensures { code_of result ≡ cond (Finite x) 0 (number_of refusal) }
{
    if is_finite(x) { Ok(()) } else { Err(refusal) }
}

// x times a power of two, exactly.
pub(crate) fn scale(x: f32, power: f64) -> f64
    requires { T (Finite x) }
    ensures { Scales x power result }
{
    (x as f64) * power
}

// The whole part of a number that is not below zero.
fn whole(v: f64) -> u64
    requires { Counted v }
    ensures { result ≡ size v / unit v }
{
    std::num::truncating_f64_to_u64(v)
}

// The least whole number that is not below such a number.
fn ceiling(v: f64) -> u64
    requires { Counted v }
    ensures { result ≡ (size v + (unit v - 1)) / unit v }
{
    let k = whole(v);
    if (k as f64) < v {
        return k + 1;
    }
    k
}

// Half of a whole number, downward.
fn half_down(c: u64) -> u64
    requires { c ≤ 2 ^ 53 }
    ensures { result ≡ c / 2 }
{
    c / 2
}

// Half of a whole number, upward.
fn half_up(k: u64) -> u64
    requires { k < 2 ^ 53 }
    ensures { result ≡ (k + 1) / 2 }
{
    (k + 1) / 2
}

// The whole number nearest to u / 2, a half upward.
pub(crate) fn nearest_half(u: f64) -> Value
    requires { T (Finite u) × (size u < 2 ^ 53 * unit u) }
    ensures { result.n ≡ Nearest (above u) (2 * unit u) }
{
    if u < 0.0 {
        let c = half_down(ceiling(-u));
        return Value { n: 0 - (c as i64) };
    }
    let k = half_up(whole(u));
    Value { n: k as i64 }
}
