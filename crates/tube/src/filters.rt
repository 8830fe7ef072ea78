// The two allpass filters of a junction, both of order 1: over what comes from the left (a) and from the right (b).
ghost use Rattle.std.specs.Prelude.{◌≡◌, [], ◌∷◌, pos};
ghost use Rattle.refusal.specs.Limits.{Between};
ghost use Rattle.refusal.specs.Orders.{Takes};
ghost use Rattle.thiran.specs.Coefficients.{coefficients};
ghost use Rattle.allpass.specs.Allpass.{out};
ghost use Rattle.junction.specs.Junction.{rest_states};
ghost use Rattle.tube.specs.Struct.{states_of, next_of, next_filters};
ghost use Rattle.tube.specs.Valid.{Tunes, Feeds, FeedsBoth};

use allpass::State;
use allpass::sample::{allpass, eliminate};
use integer::Value;
use thiran::formula::Coefficients;

// A1 and v1.
#[derive(Clone, Copy)]
pub struct Filter {
    pub a1: i64,
    pub v1: i64,
}

#[derive(Clone, Copy)]
pub struct Filters {
    pub a: Filter,
    pub b: Filter,
}

// A number of each side.
#[derive(Clone, Copy)]
pub struct Pair {
    pub a: Value,
    pub b: Value,
}

// An output, and the filter after it.
#[derive(Clone, Copy)]
pub struct Output {
    pub y: Value,
    pub filter: Filter,
}

// An output of each side, and the filters after them.
#[derive(Clone, Copy)]
pub struct Outputs {
    pub y: Pair,
    pub filters: Filters,
}

// The filter of a delay, at rest.
fn resting(d: u32) -> Filter
    requires { Takes 1 d }
    ensures { (result.a1 ∷ [] ≡ coefficients 1 d) × (result.v1 ≡ pos 0) }
{
    let c = thiran::formula::set(1, d);
    Filter { a1: c.a1, v1: 0 }
}

// The filters of d and of 8,192 − d, at rest.
pub fn at_rest(d: u32) -> Filters
    requires { Between 2049 d 6143 }
    ensures { Tunes d result × (states_of result ≡ rest_states) }
{
    Filters {
        a: resting(d),
        b: resting(8_192 - d),
    }
}

fn coefficients(f: Filter) -> Coefficients
    ensures { result ≡ record { a1 = f.a1; a2 = pos 0; a3 = pos 0 } }
{
    Coefficients {
        a1: f.a1,
        a2: 0,
        a3: 0,
    }
}

fn state(f: Filter) -> State
    ensures { result ≡ record { v1 = f.v1; v2 = pos 0; v3 = pos 0 } }
{
    State {
        v1: f.v1,
        v2: 0,
        v3: 0,
    }
}

// One sample of a filter.
fn pass(f: Filter, x: Value) -> Output
    requires { Feeds f x.n }
    ensures { (result.y.n ≡ out (f.a1 ∷ []) (f.v1 ∷ []) x.n) × (result.filter ≡ next_of f x.n) }
{
    let t = allpass(1, coefficients(f), state(f), x);
    Output {
        y: t.y,
        filter: Filter {
            v1: t.state.v1,
            ..f
        },
    }
}

// One sample of an eliminator.
fn feed(f: Filter, x: Value) -> Filter
    requires { Feeds f x.n }
    ensures { result ≡ next_of f x.n }
{
    let s = eliminate(1, true, coefficients(f), state(f), x);
    Filter { v1: s.v1, ..f }
}

// One sample of both filters.
pub fn pass_both(f: Filters, x: Pair) -> Outputs
    requires { FeedsBoth f x }
    ensures { (result.y.a.n ≡ out (f.a.a1 ∷ []) (f.a.v1 ∷ []) x.a.n)
        × (result.y.b.n ≡ out (f.b.a1 ∷ []) (f.b.v1 ∷ []) x.b.n) × (result.filters ≡ next_filters f x) }
{
    let a = pass(f.a, x.a);
    let b = pass(f.b, x.b);
    Outputs {
        y: Pair { a: a.y, b: b.y },
        filters: Filters {
            a: a.filter,
            b: b.filter,
        },
    }
}

// One sample of both eliminators.
pub fn feed_both(f: Filters, x: Pair) -> Filters
    requires { FeedsBoth f x }
    ensures { result ≡ next_filters f x }
{
    Filters {
        a: feed(f.a, x.a),
        b: feed(f.b, x.b),
    }
}
