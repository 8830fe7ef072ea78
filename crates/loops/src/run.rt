// The loop. It renders a stretch in which no place comes to the ring's end, with the state and the products that
// the next w takes in locals. Above order 1 it stops before a sample whose output is to be clipped.
ghost use Rattle.std.specs.Prelude.{◌≡◌, not, ◌+◌, ◌-◌, ◌%◌, ◌≤◌, ◌<◌, leb, pos, nat_abs, ◌+ℤ◌, ◌*ℤ◌, length};
ghost use Rattle.integer.specs.Rounding.{M, clip as Clip};
ghost use Rattle.integer.specs.Cut.{Q};
ghost use Rattle.thiran.specs.Answers.{taps};
ghost use Rattle.allpass.specs.Allpass.{next};
ghost use Rattle.allpass.specs.Stored.{stored, held, Fed};
ghost use Rattle.samples.specs.Samples.{loudest};
ghost use Rattle.line.specs.Ring.{Apart};
ghost use Rattle.voice.specs.Valid.{Valid};
ghost use Rattle.loops.specs.Carried.{after_of, Leads};
ghost use Rattle.loops.specs.Fed.{fed_of, input_of};
ghost use Rattle.loops.specs.Rendered.{Went};

use crate::{Led, Ran, input};
use allpass::products::{carry, of_state};
use allpass::sample::eliminate;
use allpass::{State, kept};
use integer::{Value, clip};
use step::feedback::{looped, mixed};
use thiran::formula::Coefficients;
use voice::{Filter, Head};

// s(n). What the loop brings back is a sample, so that it is clipped only where something comes in.
fn newest(fed: bool, buffer: &[i32], i: usize, loss: u32, y: Value, last: Value) -> Value
    requires i_in_bounds { (i < length buffer.now) × (nat_abs (input_of fed buffer.now i) ≤ M) }
    requires loss_bound { (loss ≤ 65535) × (nat_abs y.n ≤ M) × (nat_abs last.n ≤ M) }
    ensures { result.n ≡ Clip ((input_of fed buffer.now i +ℤ pos 0)
        +ℤ Q (pos loss *ℤ (y.n +ℤ last.n))) }
{
    let x = input(fed, buffer, i);
    let b = looped(loss, y, last);
    if fed {
        return mixed(x, Value { n: 0 }, b);
    }
    b
}

// y(n) as the loop has it: order 1 clips it, which was faster there, and there alone, than to stop.
fn heard(order: u32, y: Value) -> Value
    ensures { (Clip result.n ≡ Clip y.n) × (order ≡ 1 → nat_abs result.n ≤ M) }
{
    if order == 1 {
        return clip(y);
    }
    y
}

// y(n) is still to be clipped: never in order 1.
fn is_loud(order: u32, y: Value) -> bool
    requires { order ≡ 1 → nat_abs y.n ≤ M }
    ensures { result ≡ not (leb (nat_abs y.n) M) }
{
    if order == 1 {
        return false;
    }
    !samples::is_sample(y)
}

// The next state of an eliminator that takes g; u where none runs.
fn led(coming: u32, fed: bool, c: Coefficients, u: State, g: Value) -> State
    requires { 1 ≤ coming → Fed coming c u g.n }
    ensures { 1 ≤ coming → result ≡ stored (next (taps coming c) (held coming u) g.n) }
{
    if coming == 0 {
        return u;
    }
    eliminate(coming, fed, c, u, g)
}

// Renders samples of the buffer. from and far are the places that the filter and an eliminator e read at first; coming
// is the order of e, or 0 where nothing waits. An announced change does not take effect before the end.
pub fn run(
    line: &mut [i32; 2112],
    order: u32,
    coming: u32,
    fed: bool,
    h: Head,
    e: Filter,
    from: usize,
    far: usize,
    buffer: &mut [i32],
) -> Led
    requires valid { Valid h line.old × (loudest (fed_of fed 0 buffer.old) ≤ M) }
    requires order_value { (order ≡ h.filter.tuning.order) × (h.pluck.left ≡ 0)
        × Leads h.waiting coming e (length buffer.old) h.advance }
    requires from_value { (from ≡ (h.at + 2112 - h.filter.tuning.length) % 2112)
        × (far ≡ (h.at + 2112 - e.tuning.length) % 2112)
        × Apart h.at h.filter.tuning.length (length buffer.old)
        × Apart h.at e.tuning.length (length buffer.old) }
    ensures { Went fed buffer.old h line.old buffer.new (after_of h result)
        line.new result.ran.done }
{
    let mut v = kept(order, h.filter.state);
    let mut k = of_state(order, h.filter.coefficients, v);
    let mut u = kept(coming, e.state);
    let mut last = h.last;
    for i in 0..buffer.len() {
        let x = samples::read(line, from + i);
        let g = samples::read(line, far + i);
        let t = carry(order, fed, h.filter.coefficients, v, k, x);
        let y = heard(order, t.y);
        if is_loud(order, y) {
            let ran = Ran {
                state: v,
                last,
                done: i,
            };
            return Led { ran, next: u };
        }
        let s = newest(fed, buffer, i, h.loss, y, last);
        let n = led(coming, fed, e.coefficients, u, g);
        samples::write(buffer, i, y);
        samples::write(line, h.at + i, s);
        v = t.state;
        k = t.products;
        u = n;
        last = y;
    }
    let ran = Ran {
        state: v,
        last,
        done: buffer.len(),
    };
    Led { ran, next: u }
}
