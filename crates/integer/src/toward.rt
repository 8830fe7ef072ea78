// A number less or more R(u), in two ways. By the bits of the sign it takes as long whatever u is. By a branch it is
// faster where u's sign seldom changes, as in a tone, and slower in noise. LLVM keeps a branch whose ways differ.
ghost use Rattle.std.specs.Prelude.{◌≡◌, cond, ◌≤◌, ◌^◌, nat_abs, ◌+ℤ◌, ◌-ℤ◌};
ghost use Rattle.integer.specs.Cut.{R};

use crate::Value;
use crate::arithmetic::{floor_shift, is_below_zero, minus, plus};
use crate::signs::cut;

// f − R(u), by bits where noise may come.
pub fn less(noisy: bool, f: Value, u: Value) -> Value
    requires { (nat_abs f.n ≤ 2 ^ 42) × (nat_abs u.n ≤ 2 ^ 42) }
    ensures { result.n ≡ f.n -ℤ R u.n }
{
    less_or_more::<false>(noisy, f, u)
}

// f + R(u), by bits where noise may come.
pub fn more(noisy: bool, f: Value, u: Value) -> Value
    requires { (nat_abs f.n ≤ 2 ^ 42) × (nat_abs u.n ≤ 2 ^ 42) }
    ensures { result.n ≡ f.n +ℤ R u.n }
{
    less_or_more::<true>(noisy, f, u)
}

// f + R(u), or f − R(u).
fn less_or_more<const ADDS: bool>(noisy: bool, f: Value, u: Value) -> Value
    requires { (nat_abs f.n ≤ 2 ^ 42) × (nat_abs u.n ≤ 2 ^ 42) }
    ensures { result.n ≡ cond ADDS (f.n +ℤ R u.n) (f.n -ℤ R u.n) }
{
    if noisy {
        return minus_or_plus(ADDS, f, cut(u));
    }
    if is_below_zero(u) {
        return minus_or_plus(!ADDS, f, floor_shift::<16>(minus(Value { n: 0 }, u)));
    }
    minus_or_plus(ADDS, f, floor_shift::<16>(u))
}

// f + x, or f − x.
fn minus_or_plus(adds: bool, f: Value, x: Value) -> Value
    requires { (nat_abs f.n ≤ 2 ^ 42) × (nat_abs x.n ≤ 2 ^ 42) }
    ensures { result.n ≡ cond adds (f.n +ℤ x.n) (f.n -ℤ x.n) }
{
    if adds { plus(f, x) } else { minus(f, x) }
}
