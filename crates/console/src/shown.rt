// The voice that is kept, as `state` and `line` show it.
// Neither changes it.
ghost use Rattle.std.specs.Prelude.{◌<◌};

use allpass::State;
use print::Printer;
use voice::{Filter, Head, Kind, Waiting};

// The three numbers of a filter's state, 0 past the order.
fn stored(out: &mut Printer, s: State) {
    out.signed(s.v1);
    out.signed(s.v2);
    out.signed(s.v3);
}

// A change that waits: its kind, its N, L and d, how many samples it has taken, and its state.
fn change(out: &mut Printer, kind: Kind, e: Filter, taken: u32) {
    let to = e.tuning;
    out.numbers(&[kind.number(), to.order, to.length, to.delay, taken]);
    stored(out, e.state);
}

// Every part of a head: N, L and d of the filter in force, G and Na, the last output, the filter's state, what
// waits, or eight zeros where nothing does, and the rest of a pluck.
pub fn state(out: &mut Printer, h: Head) {
    let tuning = h.filter.tuning;
    out.numbers(&[tuning.order, tuning.length, tuning.delay, h.loss, h.advance]);
    out.signed(h.last.n);
    stored(out, h.filter.state);
    match h.waiting {
        Waiting::Idle => out.numbers(&[0; 8]),
        Waiting::Prepared(kind, e, taken) => change(out, kind, e, taken),
    }
    out.numbers(&[h.pluck.amplitude, h.pluck.left, h.pluck.noise]);
}

// s(n − 1), s(n − 2) and so on, as many as count.
pub fn past(out: &mut Printer, line: &[i32; 2112], at: usize, count: usize)
    requires { at < 2112 }
{
    for k in 0..count.min(2_112) {
        out.signed(line::read(line, at, k + 1).n);
    }
}
