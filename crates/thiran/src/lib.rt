// Thiran's coefficients in units of 1/65,536: the routine that a caller asks, with its refusals.
// Contracts cite specs/Answers.antt; the filter's own set is made by the module `formula`.
#![tactic(auto)]

ghost use Rattle.std.specs.Prelude.{◌≡◌};
ghost use Rattle.refusal.specs.Limits.{refusal as First};
ghost use Rattle.refusal.specs.Numbers.{code_of};
ghost use Rattle.thiran.specs.Answers.{limits, design, designed};

use refusal::{ORDERS, Refusal, within};

pub mod formula;

// A1, A2 and A3, 0 past the order: of 32 bits, as C gets them. `Coefficients`, by which the loops multiply, has 64.
#[derive(Clone, Copy)]
pub struct Taps {
    pub a1: i32,
    pub a2: i32,
    pub a3: i32,
}

// What an order and a delay are refused by: 1, 3.
pub fn refused(order: u32, d: u32) -> Result<(), Refusal>
    ensures { code_of result ≡ First (limits order d) }
{
    within(Refusal::Order, order, 1, ORDERS)?;
    within(
        Refusal::Delay,
        d,
        4_096 * order - 2_047,
        4_096 * order + 2_048,
    )
}

// A1, A2 and A3 of an order and a delay.
pub fn coefficients(order: u32, d: u32) -> Result<Taps, Refusal>
    ensures { designed result ≡ design order d }
{
    refused(order, d)?;
    let c = formula::set(order, d);
    Ok(Taps {
        a1: c.a1 as i32,
        a2: c.a2 as i32,
        a3: c.a3 as i32,
    })
}
