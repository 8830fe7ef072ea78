// Opening a junction.
ghost use Rattle.std.specs.Prelude.{◌≡◌};
ghost use Rattle.refusal.specs.Limits.{refusal as First};
ghost use Rattle.refusal.specs.Numbers.{code_of};
ghost use Rattle.junction.specs.Calls.{area_outside as Outside, open_limits, junction_at_rest, open_answer};
ghost use Rattle.tube.specs.Struct.{junction_of, opened_of};
ghost use Rattle.tube.specs.Valid.{Opens, Valid};

use crate::Junction;
use crate::filters::{Pair, at_rest};
use crate::scatter::reflection;
use integer::Value;
use refusal::{MOST_ADVANCE, Refusal, within};

// What `open` returns: a refused opening has a junction too.
#[derive(Clone, Copy)]
pub struct Opened {
    pub answer: Result<(), Refusal>,
    pub junction: Junction,
}

// 1 where an area is outside its limits, else 0.
fn area_outside(n: u32) -> u32
    ensures { result ≡ Outside n }
{
    refusal::outside(n, 1, 65_535) as u32
}

// What an opening is refused by: 25, 3, 5.
fn refused(left: u32, right: u32, d: u32, advance: u32) -> Result<(), Refusal>
    ensures { code_of result ≡ First (open_limits (record { left = left; right = right; d = d; Na = advance })) }
{
    within(
        Refusal::Area,
        area_outside(left) + area_outside(right),
        0,
        0,
    )?;
    within(Refusal::Delay, d, 2_049, 6_143)?;
    within(Refusal::Advance, advance, 0, MOST_ADVANCE)
}

// A junction at rest.
fn resting(r: Value, d: u32, advance: u32) -> Junction
    requires { Opens r.n d advance }
    ensures { Valid result × (junction_of result ≡ junction_at_rest r.n d advance) }
{
    Junction {
        r,
        d,
        advance,
        filters: at_rest(d),
        last: Pair {
            a: Value { n: 0 },
            b: Value { n: 0 },
        },
        waiting: None,
    }
}

// Opens a junction.
pub fn open(left: u32, right: u32, d: u32, advance: u32) -> Opened
    ensures { (opened_of result ≡ open_answer (record { left = left; right = right; d = d; Na = advance }))
        × Valid result.junction }
{
    let answer = refused(left, right, d, advance);
    let junction = match answer {
        Ok(()) => resting(reflection(left, right), d, advance),
        Err(_) => resting(reflection(1, 1), 4_096, 0),
    };
    Opened { answer, junction }
}
