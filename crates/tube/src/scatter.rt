// The reflection coefficient, and the two sums of a junction: each is divided once, toward zero, and clipped.
ghost use Rattle.std.specs.Prelude.{◌≡◌, ◌≤◌, pos, nat_abs, ◌+ℤ◌, ◌-ℤ◌, ◌*ℤ◌};
ghost use Rattle.integer.specs.Rounding.{M, clip as Clip};
ghost use Rattle.integer.specs.Cut.{cut};
ghost use Rattle.junction.specs.Junction.{reflection as Reflection};
ghost use Rattle.junction.specs.Refusals.{Areas};

use integer::arithmetic::{minus, plus, times};
use integer::{Value, clip, round_half_up};

// r of two areas.
pub fn reflection(left: u32, right: u32) -> Value
    requires { Areas left right }
    ensures { result.n ≡ Reflection left right }
{
    let difference = left as i64 - right as i64;
    round_half_up(
        Value {
            n: 32_768 * difference,
        },
        (left + right) as u64,
    )
}

// u / 32,768 toward zero.
fn divide(u: Value) -> Value
    ensures { result.n ≡ cut u.n 32768 }
{
    Value { n: u.n / 32_768 }
}

// What goes to the right, of the sample before from the left and of the filter over b.
pub fn to_right(r: Value, last: Value, fb: Value) -> Value
    requires { (nat_abs r.n ≤ 32767) × (nat_abs last.n ≤ M) × (nat_abs fb.n ≤ M) }
    ensures { result.n ≡ Clip (cut ((pos 32768 +ℤ r.n) *ℤ last.n -ℤ r.n *ℤ fb.n) 32768) }
{
    let p = times(plus(Value { n: 32_768 }, r), last);
    let q = times(r, fb);
    clip(divide(minus(p, q)))
}

// What goes to the left, of the filter over a and of the sample before from the right.
pub fn to_left(r: Value, fa: Value, last: Value) -> Value
    requires { (nat_abs r.n ≤ 32767) × (nat_abs fa.n ≤ M) × (nat_abs last.n ≤ M) }
    ensures { result.n ≡ Clip (cut (r.n *ℤ fa.n +ℤ (pos 32768 -ℤ r.n) *ℤ last.n) 32768) }
{
    let p = times(r, fa);
    let q = times(minus(Value { n: 32_768 }, r), last);
    clip(divide(plus(p, q)))
}
