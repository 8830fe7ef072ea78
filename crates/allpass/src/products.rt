// One sample of the filter, its products carried from sample to sample for a loop: w times each coefficient once,
// and between one w and the next a product, a shift and a sum or two.
ghost use Rattle.std.specs.Prelude.{◌≡◌, ◌≤◌, ◌^◌, pos, nat_abs, ◌*ℤ◌};
ghost use Rattle.integer.specs.Rounding.{clip as Clip};
ghost use Rattle.refusal.specs.Orders.{orders};
ghost use Rattle.thiran.specs.Answers.{taps};
ghost use Rattle.allpass.specs.Allpass.{inner as Inner, next, out};
ghost use Rattle.allpass.specs.Stored.{stored, held, Fed};
ghost use Rattle.allpass.specs.Products.{number, renewed_of, products_in, products_of};

use crate::State;
use crate::filter::{inner, oldest, shifted};
use crate::multiples::{Multiples, beside, output, quotient, scaled};
use integer::Value;
use integer::arithmetic::plus;
use integer::toward::less;
use thiran::formula::Coefficients;

// Of a state v1, v2, v3: newest is A1·v1, older A2·v2 + A3·v3, next A2·v1 + A3·v2, third A3·v1; turned is what
// the next output takes beside AN·w: A1·v1 in order 2, A2·v1 + A1·v2 in order 3. Order 1 has R(A1·v1), in cut.
#[derive(Clone, Copy)]
pub struct Products {
    pub cut: i64,
    pub newest: i64,
    pub older: i64,
    pub next: i64,
    pub third: i64,
    pub turned: i64,
}

// y is the output before it is clipped, state the next state, and products those of it.
#[derive(Clone, Copy)]
pub struct Carried {
    pub y: Value,
    pub state: State,
    pub products: Products,
}

// v2, or 0 in order 1. Not one function with `third`: it would ask which of the two is wanted.
fn second(order: u32, v: State) -> Value
    requires { (1 ≤ order) × (order ≤ orders) }
    ensures { result.n ≡ number order v 1 }
{
    if order == 1 {
        return Value { n: 0 };
    }
    Value { n: v.v2 }
}

// v3, or 0 below order 3.
fn third(order: u32, v: State) -> Value
    requires { (1 ≤ order) × (order ≤ orders) }
    ensures { result.n ≡ number order v 2 }
{
    if order < 3 {
        return Value { n: 0 };
    }
    Value { n: v.v3 }
}

// w: by the quotient in order 1, else by the sum of two numbers.
fn entered(order: u32, noisy: bool, c: Coefficients, v: State, k: Products, f: Value) -> Value
    requires { Fed order c v f.n × (k ≡ products_of order c v) }
    ensures { result.n ≡ Inner (taps order c) (held order v) f.n }
{
    if order == 1 {
        return inner(order, c, v, Value { n: k.cut }, f);
    }
    let u = plus(Value { n: k.newest }, Value { n: k.older });
    less(noisy, f, u)
}

// Those of the next state, whose w has the products x.
fn renewed(order: u32, c: Coefficients, w: Value, k: Products, x: Multiples) -> Products
    requires x2_bound { (nat_abs x.x2 ≤ 2 ^ 42) × (nat_abs k.third ≤ 2 ^ 42)
        × (nat_abs k.newest ≤ 2 ^ 42) }
    requires x1_value { (x.x1 ≡ c.a1 *ℤ w.n) × (nat_abs c.a1 ≤ 2 ^ 16) × (nat_abs w.n ≤ 2 ^ 24) }
    ensures { result ≡ renewed_of order k x }
{
    let a = plus(Value { n: x.x2 }, Value { n: k.third });
    let t = beside(order, x, Value { n: k.newest });
    let q = quotient(order, c, w, x);
    Products {
        cut: q.n,
        newest: x.x1,
        older: k.next,
        next: a.n,
        third: x.x3,
        turned: t.n,
    }
}

// Those of a state whose numbers have the products x, y and z, and w is the newest. Not by `renewed`: what it takes of
// the state before would have to be made up, half of it unused.
fn joined(
    order: u32,
    c: Coefficients,
    w: Value,
    x: Multiples,
    y: Multiples,
    z: Multiples,
) -> Products
    requires x2_bound { (nat_abs x.x2 ≤ 2 ^ 42) × (nat_abs y.x1 ≤ 2 ^ 42) × (nat_abs y.x2 ≤ 2 ^ 42)
        × (nat_abs y.x3 ≤ 2 ^ 42) × (nat_abs z.x3 ≤ 2 ^ 42) }
    requires x1_value { (x.x1 ≡ c.a1 *ℤ w.n) × (nat_abs c.a1 ≤ 2 ^ 16) × (nat_abs w.n ≤ 2 ^ 24) }
    ensures { result ≡ products_in order x y z }
{
    let a = plus(Value { n: y.x2 }, Value { n: z.x3 });
    let b = plus(Value { n: x.x2 }, Value { n: y.x3 });
    let t = beside(order, x, Value { n: y.x1 });
    let q = quotient(order, c, w, x);
    Products {
        cut: q.n,
        newest: x.x1,
        older: a.n,
        next: b.n,
        third: x.x3,
        turned: t.n,
    }
}

// Those of a state.
pub fn of_state(order: u32, c: Coefficients, v: State) -> Products
    requires { Fed order c v (pos 0) }
    ensures { result ≡ products_of order c v }
{
    let x = scaled(order, c, Value { n: v.v1 });
    let y = scaled(order, c, second(order, v));
    let z = scaled(order, c, third(order, v));
    joined(order, c, Value { n: v.v1 }, x, y, z)
}

// One sample of the filter, where k has the products of v; R as is best where noise may come, or where it does not.
// noisy is a flag and no closure: a loop gives it as a literal, and the two ways of R are in crate integer.
pub fn carry(order: u32, noisy: bool, c: Coefficients, v: State, k: Products, f: Value) -> Carried
    requires { Fed order c v f.n × (k ≡ products_of order c v) }
    ensures { (Clip result.y.n ≡ out (taps order c) (held order v) f.n)
        × (result.state ≡ stored (next (taps order c) (held order v) f.n))
        × (result.products ≡ products_of order c result.state) }
{
    let w = entered(order, noisy, c, v, k, f);
    let x = scaled(order, c, w);
    let n = renewed(order, c, w, k, x);
    let y = output(
        order,
        noisy,
        oldest(order, v),
        x,
        Value { n: k.turned },
        Value { n: n.cut },
    );
    let s = shifted(order, v, w);
    Carried {
        y: y,
        state: s,
        products: n,
    }
}
