// R and the loop's division by bits of the sign, which are added before a shift downward: so there is no choice. The
// sign of a product is known before it, by that of its factors.
ghost use Rattle.std.specs.Prelude.{◌≡◌, cond, not, ◌≤◌, ◌^◌, ◌-◌, pos, nat_abs, ◌*ℤ◌, ◌≤ℤ◌};
ghost use Rattle.std.specs.Int.Signed.{lt_z};
ghost use Rattle.integer.specs.Cut.{cut as Cut, R, Q};

use crate::Value;
use crate::arithmetic::{floor_shift, plus};

// 2^BITS − 1 where u is below 0, else 0: the highest BITS bits of u, which are those of its sign.
fn sign_bits<const BITS: u32>(u: Value) -> Value
    requires { (nat_abs u.n ≤ 2 ^ 42) × (1 ≤ BITS) × (BITS ≤ 21) }
    ensures { result.n ≡ cond (lt_z u.n (pos 0)) (pos (2 ^ BITS - 1)) (pos 0) }
{
    Value {
        n: (u.n.cast_unsigned() >> (64 - BITS)) as i64,
    }
}

// 65,535 where one of the two is below 0 and the other is not, else 0.
fn apart(a: Value, w: Value) -> Value
    requires { (nat_abs a.n ≤ 2 ^ 42) × (nat_abs w.n ≤ 2 ^ 42) }
    ensures { result.n ≡ cond (cond (lt_z a.n (pos 0)) (not (lt_z w.n (pos 0))) (lt_z w.n (pos 0)))
        (pos 65535) (pos 0) }
{
    let p = sign_bits::<16>(a);
    let q = sign_bits::<16>(w);
    Value { n: p.n ^ q.n }
}

// z / 2^BITS cut toward zero, where z is not on the other side of 0 than t.
fn cut_by<const BITS: u32>(t: Value, z: Value) -> Value
    requires { (nat_abs t.n ≤ 2 ^ 42) × (nat_abs z.n ≤ 2 ^ 42) × (1 ≤ BITS) × (BITS ≤ 21)
        × (pos 0 ≤ℤ t.n → pos 0 ≤ℤ z.n) × (t.n ≤ℤ pos 0 → z.n ≤ℤ pos 0) }
    ensures { result.n ≡ Cut z.n (2 ^ BITS) }
{
    floor_shift::<BITS>(plus(z, sign_bits::<BITS>(t)))
}

// R(u).
pub fn cut(u: Value) -> Value
    requires { nat_abs u.n ≤ 2 ^ 42 }
    ensures { result.n ≡ R u.n }
{
    cut_by::<16>(u, u)
}

// R(m), where m is a·w.
pub fn cut_product(a: Value, w: Value, m: Value) -> Value
    requires { (m.n ≡ a.n *ℤ w.n) × (nat_abs a.n ≤ 2 ^ 16) × (nat_abs w.n ≤ 2 ^ 24) }
    ensures { result.n ≡ R m.n }
{
    floor_shift::<16>(plus(m, apart(a, w)))
}

// Q(z), where z is not on the other side of 0 than t.
pub fn cut_as(t: Value, z: Value) -> Value
    requires { (nat_abs t.n ≤ 2 ^ 42) × (nat_abs z.n ≤ 2 ^ 42)
        × (pos 0 ≤ℤ t.n → pos 0 ≤ℤ z.n) × (t.n ≤ℤ pos 0 → z.n ≤ℤ pos 0) }
    ensures { result.n ≡ Q z.n }
{
    cut_by::<17>(t, z)
}
