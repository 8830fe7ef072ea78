// The loop while a pluck sounds and nothing waits. Its noise makes many samples loud, so that each output is
// clipped in the loop, which renders the whole buffer.
ghost use Rattle.std.specs.Prelude.{◌≡◌, ◌+◌, ◌-◌, ◌%◌, ◌≤◌, length};
ghost use Rattle.integer.specs.Rounding.{M};
ghost use Rattle.samples.specs.Samples.{loudest};
ghost use Rattle.line.specs.Ring.{Apart};
ghost use Rattle.voice.specs.declared.Waiting.TheVariants.{Idle};
ghost use Rattle.voice.specs.Valid.{Valid};
ghost use Rattle.loops.specs.Carried.{sung_of};
ghost use Rattle.loops.specs.Fed.{fed_of};
ghost use Rattle.loops.specs.Rendered.{Went};

use crate::carried::{anew, sung};
use crate::{Progress, input};
use allpass::products::{carry, of_state};
use allpass::{State, kept};
use integer::{Value, clip};
use step::feedback::{looped, mixed};
use step::sound::sound;
use voice::{Head, Pluck};

// What the loop leaves: the filter's state, the last output, and what is left of the pluck.
#[derive(Clone, Copy)]
pub struct Sung {
    pub state: State,
    pub last: Value,
    pub rest: Pluck,
}

// Renders the buffer while nothing waits, with the noise of a pluck where one sounds; from is the place that
// the filter reads at first.
fn plucked(
    line: &mut [i32; 2112],
    order: u32,
    fed: bool,
    h: Head,
    from: usize,
    buffer: &mut [i32],
) -> Sung
    requires valid { Valid h line.old × (loudest (fed_of fed 0 buffer.old) ≤ M) }
    requires order_value { (order ≡ h.filter.tuning.order) × (h.waiting ≡ Idle) }
    requires from_value { (from ≡ (h.at + 2112 - h.filter.tuning.length) % 2112)
        × Apart h.at h.filter.tuning.length (length buffer.old) }
    ensures { Went fed buffer.old h line.old buffer.new
        (sung_of h result (length buffer.old)) line.new (length buffer.old) }
{
    let c = h.filter.coefficients;
    let at = h.at;
    let mut v = kept(order, h.filter.state);
    let mut k = of_state(order, c, v);
    let mut p = h.pluck;
    let mut last = h.last;
    for i in 0..buffer.len() {
        let x = samples::read(line, from + i);
        let t = carry(order, true, c, v, k, x);
        let y = clip(t.y);
        let o = sound(p);
        let b = looped(h.loss, y, last);
        let s = mixed(input(fed, buffer, i), o.noise, b);
        samples::write(line, at + i, s);
        samples::write(buffer, i, y);
        v = t.state;
        k = t.products;
        p = o.rest;
        last = y;
    }
    Sung {
        state: v,
        last,
        rest: p,
    }
}

// The same, by the loop of the filter's order.
fn by_order(line: &mut [i32; 2112], fed: bool, h: Head, from: usize, buffer: &mut [i32]) -> Sung
    requires valid { Valid h line.old × (loudest (fed_of fed 0 buffer.old) ≤ M) × (h.waiting ≡ Idle) }
    requires from_value { (from ≡ (h.at + 2112 - h.filter.tuning.length) % 2112)
        × Apart h.at h.filter.tuning.length (length buffer.old) }
    ensures { Went fed buffer.old h line.old buffer.new
        (sung_of h result (length buffer.old)) line.new (length buffer.old) }
{
    match h.filter.tuning.order {
        1 => plucked(line, 1, fed, h, from, buffer),
        2 => plucked(line, 2, fed, h, from, buffer),
        _ => plucked(line, 3, fed, h, from, buffer),
    }
}

// Renders the whole buffer while nothing waits, with the noise of a pluck where one sounds.
pub fn while_plucked(line: &mut [i32; 2112], fed: bool, h: Head, buffer: &mut [i32]) -> Progress
    requires valid { Valid h line.old × (loudest (fed_of fed 0 buffer.old) ≤ M) }
    requires waiting_value { (h.waiting ≡ Idle) × Apart h.at h.filter.tuning.length (length buffer.old) }
    ensures { Went fed buffer.old h line.old buffer.new result.head
        line.new result.done × (result.done ≡ length buffer.old) }
{
    let n = buffer.len();
    let from = line::place(h.at, h.filter.tuning.length as usize);
    let r = by_order(line, fed, h, from, buffer);
    let filter = anew(h.filter.tuning.order, h.filter, r.state);
    let head = sung(h, filter, r.last, r.rest, line::round(h.at + n));
    Progress { head, done: n }
}
