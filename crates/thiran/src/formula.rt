// The coefficients of one filter, by Thiran's formula, each fraction from the one before.
// Past the order N a fraction is 0 by its factor N − k, and so is the coefficient.
ghost use Rattle.std.specs.Prelude.{◌≡◌, ◌+◌, ◌<◌, pos, ◌*ℤ◌};
ghost use Rattle.integer.specs.Rounding.{nearest};
ghost use Rattle.refusal.specs.Orders.{Takes, orders};
ghost use Rattle.thiran.specs.Coefficients.{coefficients};
ghost use Rattle.thiran.specs.Steps.{part, Roundable};
ghost use Rattle.thiran.specs.Answers.{padded};

use integer::{Value, round_half_up};

#[derive(Clone, Copy, PartialEq, Eq)]
pub struct Coefficients {
    pub a1: i64,
    pub a2: i64,
    pub a3: i64,
}

// A fraction.
#[derive(Clone, Copy)]
struct Ratio {
    pub top: i64,
    pub bottom: u64,
}

// The fraction of index k + 1 from that of index k: times (N − k) (N − D − k) / ((k + 1) (D + k + 1)),
// with 4,096 above and below, since d is 4,096 D.
fn next(p: Ratio, order: u32, d: u32, k: u32) -> Ratio
    requires { (Takes order d) × (k < orders) × (p ≡ part order d k) }
    ensures { result ≡ part order d (k + 1) }
{
    let n = order as i64 - k as i64;
    let x = (4_096 * order) as i64 - (d + 4_096 * k) as i64;
    let j = k + 1;
    let q = j * (d + 4_096 * j);
    Ratio {
        top: p.top * (n * x),
        bottom: p.bottom * (q as u64),
    }
}

// 65,536 times a fraction, to the nearest whole number, a half upward.
fn rounded(p: Ratio) -> Value
    requires { Roundable p }
    ensures { result.n ≡ nearest (pos 65536 *ℤ p.top) p.bottom }
{
    round_half_up(Value { n: 65_536 * p.top }, p.bottom)
}

// A1 .. AN, and 0 past the order. Three steps and no loop: a loop would put the numbers in an array first.
pub fn set(order: u32, d: u32) -> Coefficients
    requires { Takes order d }
    ensures { result ≡ padded (coefficients order d) }
{
    let p1 = next(Ratio { top: 1, bottom: 1 }, order, d, 0);
    let p2 = next(p1, order, d, 1);
    let p3 = next(p2, order, d, 2);
    let a1 = rounded(p1);
    let a2 = rounded(p2);
    let a3 = rounded(p3);
    Coefficients {
        a1: a1.n,
        a2: a2.n,
        a3: a3.n,
    }
}
