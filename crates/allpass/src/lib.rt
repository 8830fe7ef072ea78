// The allpass filter of order 1, 2 or 3, its eliminator, and the effective length of its response.
// Contracts cite the filter of order N over lists (specs/Allpass.antt), held in structs (specs/Stored.antt).
#![tactic(auto)]

pub mod filter;
mod multiples;
pub mod products;
mod response;
pub mod sample;

ghost use Rattle.std.specs.Prelude.{◌≡◌, [], ◌≤◌};
ghost use Rattle.refusal.specs.Orders.{orders};
ghost use Rattle.allpass.specs.Length.{effective_length, measured};
ghost use Rattle.allpass.specs.Stored.{held, stored};

use refusal::Refusal;

// v1, v2 and v3; 0 past the order.
#[derive(Clone, Copy)]
pub struct State {
    pub v1: i64,
    pub v2: i64,
    pub v3: i64,
}

// The state of a filter at rest, of any order.
pub fn at_rest() -> State
    ensures { result ≡ stored [] }
{
    State {
        v1: 0,
        v2: 0,
        v3: 0,
    }
}

// v, which has 0 past the order, with that 0 in the code: a loop of the order carries no number for it. Of order 0
// it is 0.
pub fn kept(order: u32, v: State) -> State
    requires { order ≤ orders }
    ensures { result ≡ stored (held order v) }
{
    match order {
        0 => at_rest(),
        1 => State { v2: 0, v3: 0, ..v },
        2 => State { v3: 0, ..v },
        _ => v,
    }
}

// The index of the last of the 64 values w that exceeds the threshold in magnitude, plus one, where 1,000,000
// and then zeros are fed to a resting eliminator; 0 where none does.
pub fn effective_length(order: u32, d: u32, threshold: u32) -> Result<u32, Refusal>
    ensures { measured result ≡ effective_length order d threshold }
{
    thiran::refused(order, d)?;
    let c = thiran::formula::set(order, d);
    Ok(response::last_loud(order, c, threshold))
}
