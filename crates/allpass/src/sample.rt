// One sample by itself: of the filter, clipped, and of the eliminator.
// The products that a loop would carry are made of the state, and those of the next state are left.
ghost use Rattle.std.specs.Prelude.{◌≡◌};
ghost use Rattle.thiran.specs.Answers.{taps};
ghost use Rattle.allpass.specs.Allpass.{inner as Inner, next, out};
ghost use Rattle.allpass.specs.Stored.{stored, held, Fed};

use crate::State;
use crate::filter::{inner, shifted, weighed};
use crate::products::{carry, of_state};
use integer::arithmetic::times;
use integer::signs::cut_product;
use integer::toward::less;
use integer::{Value, clip};
use thiran::formula::Coefficients;

// y is the output, and state the next state.
#[derive(Clone, Copy)]
pub struct Filtered {
    pub y: Value,
    pub state: State,
}

// One sample of the filter: the output and the next state.
pub fn allpass(order: u32, c: Coefficients, v: State, f: Value) -> Filtered
    requires { Fed order c v f.n }
    ensures { (result.y.n ≡ out (taps order c) (held order v) f.n)
        × (result.state ≡ stored (next (taps order c) (held order v) f.n)) }
{
    let t = carry(order, true, c, v, of_state(order, c, v), f);
    let s = t.state;
    Filtered {
        y: clip(t.y),
        state: s,
    }
}

// w of the eliminator, with R as the filter has it: by the signs of two factors in order 1, else by that of the sum.
fn entering(order: u32, noisy: bool, c: Coefficients, v: State, f: Value) -> Value
    requires { Fed order c v f.n }
    ensures { result.n ≡ Inner (taps order c) (held order v) f.n }
{
    if order == 1 {
        let a = Value { n: c.a1 };
        let x = Value { n: v.v1 };
        return inner(order, c, v, cut_product(a, x, times(a, x)), f);
    }
    less(noisy, f, weighed(order, c, v))
}

// One sample of the eliminator: the next state.
pub fn eliminate(order: u32, noisy: bool, c: Coefficients, v: State, f: Value) -> State
    requires { Fed order c v f.n }
    ensures { result ≡ stored (next (taps order c) (held order v) f.n) }
{
    let w = entering(order, noisy, c, v, f);
    shifted(order, v, w)
}
