// A number of a filter's state times each coefficient, and what the output and the next products take of it.
// What differs by order is here, by tests of a number, as in `filter`.
ghost use Rattle.std.specs.Prelude.{◌≡◌, ◌*◌, ◌≤◌, ◌^◌, nat_abs, ◌+ℤ◌, ◌*ℤ◌};
ghost use Rattle.integer.specs.Rounding.{M};
ghost use Rattle.integer.specs.Cut.{R};
ghost use Rattle.refusal.specs.Orders.{orders};
ghost use Rattle.thiran.specs.Coefficients.{norm};
ghost use Rattle.thiran.specs.Answers.{taps};
ghost use Rattle.allpass.specs.Products.{scaled_of, last_of, turned_of, cut_of};

use integer::Value;
use integer::arithmetic::{plus, times};
use integer::signs::cut_product;
use integer::toward::more;
use thiran::formula::Coefficients;

// A1, A2 and A3 times a number; 0 past the order.
#[derive(Clone, Copy)]
pub struct Multiples {
    pub x1: i64,
    pub x2: i64,
    pub x3: i64,
}

// A1, A2 and A3 times x.
pub fn scaled(order: u32, c: Coefficients, x: Value) -> Multiples
    requires { (1 ≤ order) × (order ≤ orders) × (norm (taps order c) ≤ 32768) × (nat_abs x.n ≤ 2 * M) }
    ensures { result ≡ scaled_of order c x.n }
{
    let a = times(Value { n: c.a1 }, x);
    if order == 1 {
        return Multiples {
            x1: a.n,
            x2: 0,
            x3: 0,
        };
    }
    let b = times(Value { n: c.a2 }, x);
    if order == 2 {
        return Multiples {
            x1: a.n,
            x2: b.n,
            x3: 0,
        };
    }
    let d = times(Value { n: c.a3 }, x);
    Multiples {
        x1: a.n,
        x2: b.n,
        x3: d.n,
    }
}

// What the next output takes beside AN·w, where x has the products of v1 and m is A1·v2.
pub fn beside(order: u32, x: Multiples, m: Value) -> Value
    requires { (nat_abs x.x2 ≤ 2 ^ 42) × (nat_abs m.n ≤ 2 ^ 42) }
    ensures { result.n ≡ turned_of order x m.n }
{
    if order == 1 {
        return Value { n: 0 };
    }
    if order == 2 {
        return Value { n: x.x1 };
    }
    plus(Value { n: x.x2 }, m)
}

// R(A1·w) in order 1, where x has the products of w.
pub fn quotient(order: u32, c: Coefficients, w: Value, x: Multiples) -> Value
    requires { (x.x1 ≡ c.a1 *ℤ w.n) × (nat_abs c.a1 ≤ 2 ^ 16) × (nat_abs w.n ≤ 2 ^ 24) }
    ensures { result.n ≡ cut_of order x }
{
    if order == 1 {
        return cut_product(Value { n: c.a1 }, w, Value { n: x.x1 });
    }
    Value { n: 0 }
}

// AN·w. Not one function with `filter::oldest`: it would take three numbers in place of a struct.
fn foremost(order: u32, x: Multiples) -> Value
    ensures { result.n ≡ last_of order x }
{
    if order == 1 {
        return Value { n: x.x1 };
    }
    if order == 2 {
        return Value { n: x.x2 };
    }
    Value { n: x.x3 }
}

// vN + R(AN·w + .. + A1·v(N−1)), which is y before it is clipped: turned is that sum but for AN·w, and made is R of it
// in order 1.
pub fn output(order: u32, noisy: bool, v: Value, x: Multiples, turned: Value, made: Value) -> Value
    requires { (order ≡ 1 → made.n ≡ R (last_of order x +ℤ turned.n)) × (nat_abs v.n ≤ 2 ^ 42)
        × (nat_abs (last_of order x) ≤ 2 ^ 41) × (nat_abs turned.n ≤ 2 ^ 41) }
    ensures { result.n ≡ v.n +ℤ R (last_of order x +ℤ turned.n) }
{
    if order == 1 {
        return plus(v, made);
    }
    more(noisy, v, plus(foremost(order, x), turned))
}
