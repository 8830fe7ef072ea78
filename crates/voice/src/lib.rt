// The parts of a voice as the code holds them, what a call returns, and what the calls share.
// specs/Struct.antt says which voice a head and a line are.
#![tactic(auto)]

ghost use Rattle.std.specs.Prelude.{◌≡◌, [], ◌∷◌, ◌≤◌};
ghost use Rattle.refusal.specs.Limits.{refusal as First};
ghost use Rattle.refusal.specs.Numbers.{code_of};
ghost use Rattle.refusal.specs.Orders.{Takes, orders, order as Order, delay as Delay};
ghost use Rattle.rule.specs.Tests.{long};
ghost use Rattle.rule.specs.Voice.{commits as Commits};
ghost use Rattle.voice.specs.Struct.{kind_of, kind_number, with_of, settled_of};
ghost use Rattle.voice.specs.Called.{Rests};

use allpass::{State, at_rest};
use integer::Value;
use refusal::{LONGEST, ORDERS, Refusal, within};
use thiran::formula::Coefficients;

#[derive(Clone, Copy)]
pub struct Tuning {
    pub order: u32,
    pub length: u32,
    pub delay: u32,
}

// A filter or an eliminator: its tuning, the coefficients of that tuning, and its state.
#[derive(Clone, Copy)]
pub struct Filter {
    pub tuning: Tuning,
    pub coefficients: Coefficients,
    pub state: State,
}

// A change waits as an announced one, which commits itself, or as one that was asked for.
#[derive(Clone, Copy)]
pub enum Kind {
    Announced = 1,
    Asked = 2,
}

impl Kind {
    // Its number where a voice is words or bytes.
    pub fn number(self) -> u32
        ensures { result ≡ kind_number self }
    {
        self as u32
    }
}

// A change that waits, with how many samples its eliminator has taken, counted up to the advance; or none.
#[derive(Clone, Copy)]
pub enum Waiting {
    Idle,
    Prepared(Kind, Filter, u32),
}

// The rest of a pluck, with its noise state; all 0 where no step is left.
#[derive(Clone, Copy)]
pub struct Pluck {
    pub amplitude: u32,
    pub left: u32,
    pub noise: u32,
}

// A voice but for its line; at is the place in the line of the next sample.
#[derive(Clone, Copy)]
pub struct Head {
    pub filter: Filter,
    pub loss: u32,
    pub advance: u32,
    pub last: Value,
    pub waiting: Waiting,
    pub pluck: Pluck,
    pub at: usize,
}

// h with another filter in force and another change waiting.
pub fn with(h: Head, filter: Filter, waiting: Waiting) -> Head
    ensures { result ≡ with_of h filter waiting }
{
    Head {
        filter,
        waiting,
        ..h
    }
}

// Whether a change that has taken so many samples commits itself.
fn commits(kind: Kind, taken: u32, advance: u32) -> bool
    ensures { result ≡ Commits (kind_of kind) taken advance }
{
    match kind {
        Kind::Announced => taken == advance,
        Kind::Asked => false,
    }
}

// h with a change to the eliminator e, which has taken so many samples: an announced one is in force once they
// are as many as the advance.
pub fn settle(h: Head, kind: Kind, e: Filter, taken: u32) -> Head
    ensures { result ≡ settled_of h kind e taken }
{
    if commits(kind, taken, h.advance) {
        return with(h, e, Waiting::Idle);
    }
    let f = h.filter;
    with(h, f, Waiting::Prepared(kind, e, taken))
}

// The filter of a tuning, at rest.
pub fn resting(tuning: Tuning) -> Filter
    requires { Takes tuning.order tuning.delay × (1 ≤ tuning.length) × (tuning.length ≤ 2048) }
    ensures { Rests tuning.order tuning.length tuning.delay result }
{
    Filter {
        tuning,
        coefficients: thiran::formula::set(tuning.order, tuning.delay),
        state: at_rest(),
    }
}

// What a length and a delay are refused by in an order that there is: 2, 3.
fn in_order(tuning: Tuning) -> Result<(), Refusal>
    requires { (1 ≤ tuning.order) × (tuning.order ≤ orders) }
    ensures { code_of result ≡ First (long tuning.length ∷ Delay tuning.order tuning.delay ∷ []) }
{
    within(Refusal::Length, tuning.length, 1, LONGEST)?;
    let middle = 4_096 * tuning.order;
    within(Refusal::Delay, tuning.delay, middle - 2_047, middle + 2_048)
}

// What a tuning is refused by: 1, 2, 3.
pub fn untuned(tuning: Tuning) -> Result<(), Refusal>
    ensures { code_of result
        ≡ First (Order tuning.order ∷ long tuning.length ∷ Delay tuning.order tuning.delay ∷ []) }
{
    within(Refusal::Order, tuning.order, 1, ORDERS)?;
    in_order(tuning)
}
