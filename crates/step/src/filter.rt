// A tuned filter and a sample: the filter in force gives an output, an eliminator only moves.
// Contracts cite specs/Sample.antt.
ghost use Rattle.std.specs.Prelude.{◌≤◌, nat_abs};
ghost use Rattle.integer.specs.Rounding.{M};
ghost use Rattle.voice.specs.Valid.{Tuned};
ghost use Rattle.step.specs.Sample.{Moved, Hears};

use allpass::sample::{allpass, eliminate};
use integer::Value;
use voice::Filter;

#[derive(Clone, Copy)]
pub struct Heard {
    pub y: Value,
    pub filter: Filter,
}

// The filter takes x, and gives y(n).
pub fn hear(f: Filter, x: Value) -> Heard
    requires { Tuned f × (nat_abs x.n ≤ M) }
    ensures { Hears f x.n result }
{
    let o = allpass(f.tuning.order, f.coefficients, f.state, x);
    Heard {
        y: o.y,
        filter: Filter {
            state: o.state,
            ..f
        },
    }
}

// The eliminator takes x.
pub fn moved(f: Filter, x: Value) -> Filter
    requires { Tuned f × (nat_abs x.n ≤ M) }
    ensures { Moved f x.n result }
{
    let state = eliminate(f.tuning.order, false, f.coefficients, f.state, x);
    Filter { state, ..f }
}
