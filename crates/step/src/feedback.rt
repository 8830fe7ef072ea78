// The loop of the string: the filter's output and the last one, times the loop gain, are mixed with what comes
// in and go into the line. Contracts cite specs/Sample.antt.
ghost use Rattle.std.specs.Prelude.{◌≡◌, ◌≤◌, ◌<◌, ◌^◌, pos, nat_abs, ◌+ℤ◌, ◌*ℤ◌};
ghost use Rattle.integer.specs.Rounding.{M, clip as Clip};
ghost use Rattle.integer.specs.Cut.{Q};
ghost use Rattle.allpass.specs.Bounds.{Within};
ghost use Rattle.line.specs.Ring.{ring};
ghost use Rattle.voice.specs.Valid.{Tuned};
ghost use Rattle.step.specs.Sample.{Circulates};

use crate::filter::hear;
use integer::arithmetic::{plus, scale};
use integer::signs::cut_as;
use integer::{Value, clip};
use voice::Filter;

// at is the place of the next sample.
#[derive(Clone, Copy)]
pub struct Circulated {
    pub y: Value,
    pub filter: Filter,
    pub at: usize,
}

// What the loop brings back: G·(y(n) + y(n − 1)), cut toward zero. The sum's sign, known before the product, tells
// which way.
pub fn looped(loss: u32, y: Value, last: Value) -> Value
    requires { (loss ≤ 65535) × (nat_abs y.n ≤ M) × (nat_abs last.n ≤ M) }
    ensures { (result.n ≡ Q (pos loss *ℤ (y.n +ℤ last.n))) × (nat_abs result.n ≤ M) }
{
    let t = plus(y, last);
    cut_as(t, scale(loss, t))
}

// s(n): the input, the noise sample and what the loop brings back, clipped.
pub fn mixed(x: Value, noise: Value, back: Value) -> Value
    requires { (nat_abs x.n ≤ M) × (nat_abs noise.n ≤ 2 ^ 23) × (nat_abs back.n ≤ M) }
    ensures { result.n ≡ Clip ((x.n +ℤ noise.n) +ℤ back.n) }
{
    clip(Value {
        n: x.n + noise.n + back.n,
    })
}

// One sample of the loop, with input x and some noise: the filter takes s(n − L), s(n) goes into the line.
pub fn circulate(
    line: &mut [i32; 2112],
    f: Filter,
    loss: u32,
    last: Value,
    at: usize,
    x: Value,
    noise: Value,
) -> Circulated
    requires tuned { Tuned f × (loss ≤ 65535) × (nat_abs last.n ≤ M) × (at < 2112)
        × Within M (ring at line.old) }
    requires n_bound { (nat_abs x.n ≤ M) × (nat_abs noise.n ≤ 2 ^ 23) }
    ensures { Circulates f loss last.n at line.old x.n noise.n result
        line.new }
{
    let a = line::read(line, at, f.tuning.length as usize);
    let o = hear(f, a);
    let s = mixed(x, noise, looped(loss, o.y, last));
    Circulated {
        y: o.y,
        filter: o.filter,
        at: line::write(line, at, s),
    }
}
