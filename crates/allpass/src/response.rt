// The response of a resting eliminator to one sample of 1,000,000: the last value above a threshold.
// Each w is the first number of the state that it makes.
ghost use Rattle.std.specs.Prelude.{◌≡◌, cond, ◌+◌, ◌≤◌, ◌<◌, ltb, nat_abs};
ghost use Rattle.refusal.specs.Orders.{orders};
ghost use Rattle.thiran.specs.Coefficients.{norm};
ghost use Rattle.thiran.specs.Answers.{taps};
ghost use Rattle.allpass.specs.Length.{response, last_above};

use crate::sample::eliminate;
use crate::{State, at_rest};
use integer::Value;
use thiran::formula::Coefficients;

// The index of a value plus one, where it is above the threshold in magnitude, else what was found before it.
fn later(v: State, threshold: u32, index: u32, last: u32) -> u32
    requires { index < 64 }
    ensures { result ≡ cond (ltb threshold (nat_abs v.v1)) (index + 1) last }
{
    if v.v1.unsigned_abs() > u64::from(threshold) {
        return index + 1;
    }
    last
}

// The index of the last of the 64 values w that is above the threshold in magnitude, plus one, else 0.
pub fn last_loud(order: u32, c: Coefficients, threshold: u32) -> u32
    requires { (1 ≤ order) × (order ≤ orders) × (norm (taps order c) ≤ 32768) }
    ensures { result ≡ last_above threshold (response (taps order c) order) }
{
    let mut v = eliminate(order, false, c, at_rest(), Value { n: 1_000_000 });
    let mut last = later(v, threshold, 0, 0);
    for index in 1..64 {
        v = eliminate(order, false, c, v, Value { n: 0 });
        last = later(v, threshold, index, last);
    }
    last
}
