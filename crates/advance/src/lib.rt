// The least advance that keeps a change to a tuning within a wanted distance of the ideal filter, by the tuning's own
// figure. Contracts cite specs/Least.antt.
#![tactic(auto)]

ghost use Rattle.std.specs.Prelude.{◌≡◌, ◌+◌, ◌≤◌, nat_abs};
ghost use Rattle.refusal.specs.Orders.{orders};
ghost use Rattle.advance.specs.Least.{advance_of, first, found, least_advance};

use refusal::{MOST_ADVANCE, Refusal};
use thiran::Taps;

// What the magnitudes of the coefficients add up to.
fn norm(c: Taps) -> u64
    ensures { result ≡ nat_abs c.a1 + nat_abs c.a2 + nat_abs c.a3 }
{
    c.a1.unsigned_abs() as u64 + c.a2.unsigned_abs() as u64 + c.a3.unsigned_abs() as u64
}

// The first advance that is enough, of coefficients whose magnitudes add up to n. The figure falls only where an
// advance is a multiple of the order, so no other is tried. b is b(k), and next b(k + 1).
fn search(n: u64, order: u32, wanted: u32) -> Result<u32, Refusal>
    requires { (n ≤ 65536) × (1 ≤ order) × (order ≤ orders) }
    ensures { result ≡ found (first n order wanted) }
{
    let mut b: u64 = 16_777_214;
    for k in 0..=MOST_ADVANCE / order {
        let next = (n * b + 65_535) / 65_536;
        if b + next <= wanted as u64 {
            return Ok(k * order);
        }
        b = next;
    }
    Err(Refusal::NoAdvance)
}

// The least advance from 0 to 64 with which each sample from the first one after a change to the order and the delay d
// on is at most `wanted` from the ideal filter's.
pub fn least(order: u32, d: u32, wanted: u32) -> Result<u32, Refusal>
    ensures { advance_of result ≡ least_advance order d wanted }
{
    let c = thiran::coefficients(order, d)?;
    search(norm(c), order, wanted)
}
