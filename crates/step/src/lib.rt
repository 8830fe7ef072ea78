// One sample of the voice: the loop, the eliminator of a change that waits, and the noise of a pluck.
// The line is lent, never copied. Each function makes one part of document 01's four steps.
#![tactic(auto)]

ghost use Rattle.std.specs.Prelude.{◌≡◌, suc, ◌≤◌, min, nat_abs};
ghost use Rattle.integer.specs.Rounding.{M};
ghost use Rattle.voice.specs.Valid.{Waiting-valid, Fit, Valid};
ghost use Rattle.step.specs.Sample.{Settles, Steps, previewed};

pub mod feedback;
pub mod filter;
pub mod sound;

use feedback::circulate;
use filter::moved;
use integer::Value;
use sound::sound;
use voice::{Head, Waiting, settle};

#[derive(Clone, Copy)]
pub struct Stepped {
    pub y: Value,
    pub head: Head,
}

// One sample more, counted up to the advance.
fn counted(taken: u32, advance: u32) -> u32
    ensures { result ≡ min (suc taken) advance }
{
    if taken < advance { taken + 1 } else { advance }
}

// The waiting change w takes g; an announced one is put in force once it has taken as many samples as the
// advance.
fn settled(h: Head, w: Waiting, g: Value) -> Head
    requires { Fit h × Waiting-valid h.advance w × (nat_abs g.n ≤ M) }
    ensures { Settles h w g.n result }
{
    match w {
        Waiting::Idle => h,
        Waiting::Prepared(kind, e, taken) => {
            settle(h, kind, moved(e, g), counted(taken, h.advance))
        }
    }
}

// The length that the eliminator reads at; the filter's where nothing waits.
fn preview(h: Head) -> usize
    ensures { result ≡ previewed h.waiting h.filter.tuning.length }
{
    match h.waiting {
        Waiting::Idle => h.filter.tuning.length as usize,
        Waiting::Prepared(_, e, _) => e.tuning.length as usize,
    }
}

// One step with input x.
pub fn step(line: &mut [i32; 2112], h: Head, x: Value) -> Stepped
    requires { Valid h line.old × (nat_abs x.n ≤ M) }
    ensures { Steps h line.old x.n result line.new }
{
    let g = line::read(line, h.at, preview(h));
    let p = sound(h.pluck);
    let r = circulate(line, h.filter, h.loss, h.last, h.at, x, p.noise);
    let n = Head {
        filter: r.filter,
        last: r.y,
        waiting: Waiting::Idle,
        pluck: p.rest,
        at: r.at,
        ..h
    };
    Stepped {
        y: r.y,
        head: settled(n, h.waiting, g),
    }
}
