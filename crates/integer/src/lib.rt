// Signed whole numbers: clipping, division toward zero, floor division and rounding built on it, wrapping product.
// A signed number goes between functions in a struct, so that a contract reads the number and not its bits.
#![tactic(auto)]

pub mod arithmetic;
pub mod signs;
pub mod toward;

ghost use Rattle.std.specs.Prelude.{◌≡◌, ◌+◌, ◌*◌, ◌%◌, ◌^◌, ◌≤◌, ◌<◌, nat_abs};
ghost use Rattle.integer.specs.Rounding.{clip as Clip, floor, nearest};

#[derive(Clone, Copy)]
pub struct Value {
    pub n: i64,
}

// The sample that is nearest to u.
pub fn clip(u: Value) -> Value
    ensures { result.n ≡ Clip u.n }
{
    Value {
        n: u.n.clamp(-8_388_607, 8_388_607),
    }
}

// u / m downward: the quotient toward zero, one less where the remainder is below zero.
// Document 01 names this form, a floor built on truncating division: so it is not div_euclid.
pub fn floor_div(u: Value, m: u64) -> Value
    requires { (0 < m) × (m < 2 ^ 63) }
    ensures { result.n ≡ floor u.n m }
{
    let k = m as i64;
    let q = u.n / k;
    if u.n % k < 0 {
        return Value { n: q - 1 };
    }
    Value { n: q }
}

// p / q to the nearest, a half upward.
pub fn round_half_up(p: Value, q: u64) -> Value
    requires { (0 < q) × (2 * nat_abs p.n + 3 * q ≤ 2 ^ 62) }
    ensures { result.n ≡ nearest p.n q }
{
    let k = q as i64;
    floor_div(Value { n: 2 * p.n + k }, 2 * q)
}

// a times b, modulo 2^32. Document 01 names it, a wrapping product as a helper.
pub fn wrapping_mul_u32(a: u32, b: u32) -> u32
    ensures { result ≡ (a * b) % 2 ^ 32 }
{
    a.wrapping_mul(b)
}

// The magnitude of x.
pub fn magnitude(x: i32) -> u64
    ensures { result ≡ nat_abs x }
{
    u64::from(x.unsigned_abs())
}
