// Parts of one sample. What differs by order is in `oldest`, `shifted` and `weighed`, which has as many products as
// the order. A state holds 0 past the order.
// The order is a number and no const parameter: a voice has it as one, and each loop of an order is a call with a
// literal, where LLVM folds these tests. They stay as bench/floor holds them to C: a loop that costs LLVM more is no
// longer compiled into its caller. Order, c and v stay apart: a loop carries v, and the others do not change.
ghost use Rattle.std.specs.Prelude.{◌≡◌, ◌*◌, ◌≤◌, pos};
ghost use Rattle.integer.specs.Rounding.{M};
ghost use Rattle.integer.specs.Cut.{R};
ghost use Rattle.refusal.specs.Orders.{orders};
ghost use Rattle.thiran.specs.Coefficients.{norm};
ghost use Rattle.thiran.specs.Answers.{taps};
ghost use Rattle.allpass.specs.Allpass.{dot, final, shift, inner as Inner};
ghost use Rattle.allpass.specs.Bounds.{Within};
ghost use Rattle.allpass.specs.Stored.{stored, held, Fed};

use crate::State;
use integer::Value;
use thiran::formula::Coefficients;

// vN.
pub fn oldest(order: u32, v: State) -> Value
    requires { (1 ≤ order) × (order ≤ orders) }
    ensures { result.n ≡ final (pos 0) (held order v) }
{
    if order == 1 {
        return Value { n: v.v1 };
    }
    if order == 2 {
        return Value { n: v.v2 };
    }
    Value { n: v.v3 }
}

// w in front of v, and the last number dropped.
pub fn shifted(order: u32, v: State, w: Value) -> State
    requires { (1 ≤ order) × (order ≤ orders) }
    ensures { result ≡ stored (shift w.n (held order v)) }
{
    if order < 2 {
        return State {
            v1: w.n,
            v2: 0,
            v3: 0,
        };
    }
    if order < 3 {
        return State {
            v1: w.n,
            v2: v.v1,
            v3: 0,
        };
    }
    State {
        v1: w.n,
        v2: v.v1,
        v3: v.v2,
    }
}

// A1·v1 + .. + AN·vN, above order 1; the newest number of the state is added last.
pub fn weighed(order: u32, c: Coefficients, v: State) -> Value
    requires { (2 ≤ order) × (order ≤ orders) × (norm (taps order c) ≤ 32768)
        × Within (2 * M) (held order v) }
    ensures { result.n ≡ dot (taps order c) (held order v) }
{
    if order == 2 {
        return Value {
            n: c.a1 * v.v1 + c.a2 * v.v2,
        };
    }
    Value {
        n: c.a1 * v.v1 + (c.a2 * v.v2 + c.a3 * v.v3),
    }
}

// w, where r is R(A1·v1 + .. + AN·vN).
pub fn inner(order: u32, c: Coefficients, v: State, r: Value, f: Value) -> Value
    requires { Fed order c v f.n × (r.n ≡ R (dot (taps order c) (held order v))) }
    ensures { result.n ≡ Inner (taps order c) (held order v) f.n }
{
    Value { n: f.n - r.n }
}
