// What a loop over a voice's samples leaves of it, and the head that this makes.
// Only what is new goes back to whoever keeps the head, and is put into it number by number: the head stays where it is.
ghost use Rattle.std.specs.Prelude.{◌≡◌, ◌+◌, ◌≤◌, min};
ghost use Rattle.voice.specs.Valid.{Waiting-valid};
ghost use Rattle.loops.specs.Carried.{after_of, anew_of, left_of, moved_of};

use crate::{Led, Ran};
use allpass::State;
use integer::Value;
use voice::{Filter, Head, Pluck, Tuning, Waiting, settle};

// f, in an order that is its own, with another state.
pub fn anew(order: u32, f: Filter, v: State) -> Filter
    ensures { result ≡ anew_of order f v }
{
    Filter {
        tuning: Tuning { order, ..f.tuning },
        state: v,
        ..f
    }
}

// f with another state, which is put into it number by number: copied at once it was slower, as loads likely wait
// for the stores before them.
fn renewed(mut f: Filter, v: State) -> Filter
    ensures { result ≡ anew_of f.tuning.order f v }
{
    let s = State {
        v1: v.v1,
        v2: v.v2,
        v3: v.v3,
    };
    f.state = s;
    f
}

// h after some samples in which no pluck sounds, with what waits as it was.
fn moved(mut h: Head, r: Ran) -> Head
    requires { h.at + r.done ≤ 2112 }
    ensures { result ≡ moved_of h r }
{
    h.filter = renewed(h.filter, r.state);
    h.last = r.last;
    h.at = line::round(h.at + r.done);
    h
}

// So many samples more, counted up to the advance.
fn counted(taken: u32, more: usize, advance: u32) -> u32
    requires { taken ≤ advance }
    ensures { result ≡ min (taken + more) advance }
{
    if more < (advance - taken) as usize {
        return taken + (more as u32);
    }
    advance
}

// h after a stretch.
pub fn after(h: Head, p: Led) -> Head
    requires { Waiting-valid h.advance h.waiting × (h.at + p.ran.done ≤ 2112) }
    ensures { result ≡ after_of h p }
{
    match h.waiting {
        Waiting::Idle => moved(h, p.ran),
        Waiting::Prepared(kind, e, taken) => settle(
            moved(h, p.ran),
            kind,
            renewed(e, p.next),
            counted(taken, p.ran.done, h.advance),
        ),
    }
}

// h after some samples, with p left of its pluck.
pub fn sung(h: Head, f: Filter, last: Value, p: Pluck, at: usize) -> Head
    ensures { result ≡ left_of h f last p at }
{
    Head {
        filter: f,
        last,
        waiting: Waiting::Idle,
        pluck: p,
        at,
        ..h
    }
}
