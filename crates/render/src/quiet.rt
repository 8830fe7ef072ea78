// Samples while no pluck sounds: as many as one loop renders, by what waits.
// What is new of the head goes back; `loops::carried::after` makes the head of it.
ghost use Rattle.std.specs.Prelude.{◌≡◌, ◌+◌, ◌≤◌};
ghost use Rattle.integer.specs.Rounding.{M};
ghost use Rattle.samples.specs.Samples.{loudest};
ghost use Rattle.voice.specs.Valid.{Fit, Valid};
ghost use Rattle.loops.specs.Carried.{after_of};
ghost use Rattle.loops.specs.Fed.{fed_of};
ghost use Rattle.loops.specs.Rendered.{Went};

use crate::reach::reach;
use loops::{Led, Ran, while_idle, while_waiting};
use voice::{Head, Waiting};

// What goes on of a voice while none of its samples is rendered.
fn none(h: Head) -> Led
    requires { Fit h }
    ensures { (after_of h result ≡ h) × (result.ran.done ≡ 0) }
{
    let ran = Ran {
        state: h.filter.state,
        last: h.last,
        done: 0,
    };
    let next = match h.waiting {
        Waiting::Idle => h.filter.state,
        Waiting::Prepared(_, e, _) => e.state,
    };
    Led { ran, next }
}

// Renders samples while no pluck sounds, as many as one loop can.
pub fn quiet(line: &mut [i32; 2112], fed: bool, h: Head, buffer: &mut [i32]) -> Led
    requires { Valid h line.old × (loudest (fed_of fed 0 buffer.old) ≤ M) }
    ensures went { Went fed buffer.old h line.old buffer.new (after_of h result)
        line.new result.ran.done }
    ensures done_bound { h.at + result.ran.done ≤ 2112 }
{
    if h.pluck.left != 0 {
        return none(h);
    }
    let n = line::room(h.at, h.filter.tuning.length as usize, buffer.len());
    match h.waiting {
        Waiting::Idle => while_idle(line, fed, h, &mut buffer[..n]),
        Waiting::Prepared(kind, e, taken) => {
            let m = line::room(h.at, e.tuning.length as usize, n);
            let k = reach(kind, m, (h.advance - taken) as usize);
            while_waiting(line, fed, h, e, taken, &mut buffer[..k])
        }
    }
}
