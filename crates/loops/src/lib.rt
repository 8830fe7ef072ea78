// The loops over a block's samples while no pluck sounds: with nothing waiting, and with a change that waits.
// Each renders as many samples of a stretch as it can, and tells how many are done. `plucked` has a pluck's.
#![tactic(auto)]

ghost use Rattle.std.specs.Prelude.{◌≡◌, ◌+◌, ◌≤◌, ◌<◌, length};
ghost use Rattle.integer.specs.Rounding.{M};
ghost use Rattle.samples.specs.Samples.{loudest};
ghost use Rattle.line.specs.Ring.{Apart};
ghost use Rattle.voice.specs.declared.Waiting.TheVariants.{Idle, Prepared};
ghost use Rattle.voice.specs.Valid.{Valid};
ghost use Rattle.loops.specs.Carried.{after_of, kind_in, Lasts};
ghost use Rattle.loops.specs.Fed.{fed_of, input_of};
ghost use Rattle.loops.specs.Rendered.{Went};

use allpass::State;
use integer::Value;
use voice::{Filter, Head};

pub mod carried;
mod orders;
pub mod plucked;
mod run;

// A voice once the first samples of a buffer are rendered, so many as are done.
#[derive(Clone, Copy)]
pub struct Progress {
    pub head: Head,
    pub done: usize,
}

// What a loop leaves: the filter's state, the last output, and how many samples are done.
#[derive(Clone, Copy)]
pub struct Ran {
    pub state: State,
    pub last: Value,
    pub done: usize,
}

// The same with the state of an eliminator, which is not read where none runs.
#[derive(Clone, Copy)]
pub struct Led {
    pub ran: Ran,
    pub next: State,
}

// The input at place i: the number there, or 0 where nothing comes in.
pub fn input(fed: bool, buffer: &[i32], i: usize) -> Value
    requires { i < length buffer.now }
    ensures { result.n ≡ input_of fed buffer.now i }
{
    if fed {
        return samples::read(buffer, i);
    }
    Value { n: 0 }
}

// Renders samples of the buffer while nothing waits.
pub fn while_idle(line: &mut [i32; 2112], fed: bool, h: Head, buffer: &mut [i32]) -> Led
    requires valid { Valid h line.old × (loudest (fed_of fed 0 buffer.old) ≤ M) }
    requires waiting_value { (h.waiting ≡ Idle) × (h.pluck.left ≡ 0)
        × Apart h.at h.filter.tuning.length (length buffer.old) }
    ensures { Went fed buffer.old h line.old buffer.new (after_of h result)
        line.new result.ran.done }
{
    let from = line::place(h.at, h.filter.tuning.length as usize);
    orders::by_order(line, fed, h, from, buffer)
}

// Renders samples of the buffer while a change waits; an announced one may take effect at the last.
pub fn while_waiting(
    line: &mut [i32; 2112],
    fed: bool,
    h: Head,
    e: Filter,
    taken: u32,
    buffer: &mut [i32],
) -> Led
    requires valid { Valid h line.old × (loudest (fed_of fed 0 buffer.old) ≤ M)
        × Lasts (kind_in h.waiting) (taken + length buffer.old) h.advance }
    requires waiting_value { (h.waiting ≡ Prepared (kind_in h.waiting) e taken) × (h.pluck.left ≡ 0)
        × Apart h.at h.filter.tuning.length (length buffer.old)
        × Apart h.at e.tuning.length (length buffer.old) }
    ensures { Went fed buffer.old h line.old buffer.new (after_of h result)
        line.new result.ran.done }
{
    let from = line::place(h.at, h.filter.tuning.length as usize);
    let far = line::place(h.at, e.tuning.length as usize);
    orders::by_orders(line, fed, h, e, from, far, buffer)
}
