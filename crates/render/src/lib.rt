// Rendering in place, for blocks and the waits of a score: each sample is an input or none comes in, and becomes
// the output.
// A buffer is rendered in stretches, each by the loop that fits what waits and what sounds.
#![tactic(auto)]

ghost use Rattle.std.specs.Prelude.{◌≡◌, false, List, ◌+◌, ◌≤◌, ◌<◌, ℤ, pos, length, replicate};
ghost use Rattle.integer.specs.Rounding.{M};
ghost use Rattle.samples.specs.Samples.{loudest};
ghost use Rattle.rule.specs.State.{block_after, block_out};
ghost use Rattle.voice.specs.Struct.{state_of};
ghost use Rattle.voice.specs.Valid.{Valid};
ghost use Rattle.loops.specs.Carried.{after_of};
ghost use Rattle.loops.specs.Fed.{fed_of};
ghost use Rattle.loops.specs.Rendered.{Unfed, Went};

use crate::quiet::quiet;
use crate::reach::sung;
use loops::carried::after;
use loops::plucked::while_plucked;
use loops::{Led, Progress, input};
use step::step;
use voice::Head;

mod quiet;
mod reach;

// Renders samples until no pluck sounds, one at least; a change may wait.
fn sounding(line: &mut [i32; 2112], fed: bool, mut head: Head, buffer: &mut [i32]) -> Progress
    requires { Valid head line.old × (loudest (fed_of fed 0 buffer.old) ≤ M) }
    ensures went { Went fed buffer.old head line.old buffer.new result.head
        line.new result.done }
    ensures done_nonzero { 0 < length buffer.old → 0 < result.done }
{
    for i in 0..buffer.len() {
        let x = input(fed, buffer, i);
        let r = step(line, head, x);
        samples::write(buffer, i, r.y);
        head = r.head;
        if head.pluck.left == 0 {
            return Progress { head, done: i + 1 };
        }
    }
    Progress {
        head,
        done: buffer.len(),
    }
}

// Renders samples while a pluck sounds, or where one is to be clipped; one at least.
fn loud(line: &mut [i32; 2112], fed: bool, h: Head, buffer: &mut [i32]) -> Progress
    requires { Valid h line.old × (loudest (fed_of fed 0 buffer.old) ≤ M) }
    ensures went { Went fed buffer.old h line.old buffer.new result.head
        line.new result.done }
    ensures done_nonzero { 0 < length buffer.old → 0 < result.done }
{
    let k = sung(h, buffer.len());
    if k == 0 {
        return sounding(line, fed, h, buffer);
    }
    while_plucked(line, fed, h, &mut buffer[..k])
}

// Renders as many samples as one loop can, one at least.
fn stretch(line: &mut [i32; 2112], fed: bool, h: Head, buffer: &mut [i32]) -> Progress
    requires { Valid h line.old × (loudest (fed_of fed 0 buffer.old) ≤ M) }
    ensures went { Went fed buffer.old h line.old buffer.new result.head
        line.new result.done }
    ensures done_nonzero { 0 < length buffer.old → 0 < result.done }
{
    let p = quiet(line, fed, h, buffer);
    let n = p.ran.done;
    let k = after(h, p);
    if n != 0 {
        return Progress { head: k, done: n };
    }
    loud(line, fed, k, buffer)
}

// Each sample of the buffer is an input where one is fed, else 0 comes in, and becomes the output.
fn through(line: &mut [i32; 2112], fed: bool, mut head: Head, buffer: &mut [i32]) -> Head
    requires { Valid head line.old × (loudest (fed_of fed 0 buffer.old) ≤ M) }
    ensures line_after { state_of result line.new
        ≡ block_after (state_of head line.old) (fed_of fed 0 buffer.old) }
    ensures buffer_after { buffer.new
        ≡ block_out (state_of head line.old) (fed_of fed 0 buffer.old) }
    ensures valid { Valid result line.new }
{
    let mut i = 0;
    // Not a `for`: a stretch is as long as the loop that renders it can be.
    while i < buffer.len() {
        let p = stretch(line, fed, head, &mut buffer[i..]);
        head = p.head;
        i = i + p.done;
    }
    head
}

// Each sample of the buffer is an input, and becomes the output.
pub fn render(line: &mut [i32; 2112], head: Head, buffer: &mut [i32]) -> Head
    requires { Valid head line.old × (loudest buffer.old ≤ M) }
    ensures line_after { state_of result line.new
        ≡ block_after (state_of head line.old) buffer.old }
    ensures buffer_after { buffer.new
        ≡ block_out (state_of head line.old) buffer.old }
    ensures valid { Valid result line.new }
{
    through(line, true, head, buffer)
}

// Renders samples where 0 comes in at each, as many as one loop can, for whoever keeps the head: `after` makes it the
// head that this leaves.
pub fn begin(line: &mut [i32; 2112], head: Head, buffer: &mut [i32]) -> Led
    requires { Valid head line.old }
    ensures went { Went false buffer.old head line.old buffer.new (after_of head result)
        line.new result.ran.done }
    ensures done_bound { head.at + result.ran.done ≤ 2112 }
{
    quiet(line, false, head, buffer)
}

// The rest of a buffer whose first samples are rendered, so many, where 0 comes in at each.
pub fn rest(line: &mut [i32; 2112], head: Head, from: usize, buffer: &mut [i32]) -> Head
    requires { Valid head line.old × (from ≤ length buffer.old) }
    ensures { (b : List ℤ) (h : Head) (l : List ℤ)
        → Went false b h l buffer.old head line.old from
        → Unfed b h l buffer.new result line.new }
{
    through(line, false, head, &mut buffer[from..])
}

// The output where 0 comes in at each sample, whatever the buffer held.
pub fn silent(line: &mut [i32; 2112], head: Head, buffer: &mut [i32]) -> Head
    requires { Valid head line.old }
    ensures line_after { state_of result line.new
        ≡ block_after (state_of head line.old) (replicate (length buffer.old) (pos 0)) }
    ensures buffer_after { buffer.new
        ≡ block_out (state_of head line.old) (replicate (length buffer.old) (pos 0)) }
    ensures valid { Valid result line.new }
{
    through(line, false, head, buffer)
}
