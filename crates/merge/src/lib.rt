// Two scores into one: document 02, L14. Each score is played alone on its outline; then both together, without a
// write, to see whether the merge plays and fits; then they are written. Contracts cite specs/ and crate timeline.
#![tactic(auto)]

ghost use Rattle.std.specs.Prelude.{◌≡◌, ◌≤◌, length, take};
ghost use Rattle.octets.specs.Octets.{laid};
ghost use Rattle.refusal.specs.Numbers.{code_of};
ghost use Rattle.outline.specs.Struct.{outline_of, ended, EndsAs};
ghost use Rattle.outline.specs.Outline.{in_force, run as Run};
ghost use Rattle.timeline.specs.Answered.{Answered};
ghost use Rattle.merge.specs.Walk.{SameHeader, Opens, length_of};

use open::Opening;
use outline::{Course, Span, Stopped, play};
use refusal::{Refusal, code};
use score::opening;

mod fields;
mod turn;
mod walk;

use walk::walk;

// A score on the way: where its next record starts, the samples since its last one, and its course.
// A place and not the bytes behind it: both scores are lent beside it, and a turn changes the place alone.
#[derive(Clone, Copy)]
pub struct Side {
    pub at: usize,
    pub since: u32,
    pub course: Course,
}

// Both scores.
#[derive(Clone, Copy)]
pub struct Pair {
    pub first: Side,
    pub second: Side,
}

// Which score the next record is from, with how many samples the merge waits for it.
#[derive(Clone, Copy)]
pub enum Choice {
    First(u32),
    Second(u32),
}

// Whether the first 8 bytes are the same; a missing byte is unlike any present one. Compiled apart, as `opening_course` is:
// these stand before the loops of `render` in the archive, and 16 bytes there decide rows of bench/floor
// (docs/PERFORMANCE.md).
#[inline(never)]
fn same_header(a: &[u8], b: &[u8]) -> bool
    ensures { SameHeader a.now b.now result }
{
    let n = a.len().min(8);
    let m = b.len().min(8);
    a[..n] == b[..m]
}

// The course that an opening starts.
#[inline(never)]
fn opening_course(o: Opening) -> Course
    ensures { outline_of result ≡ in_force o.tuning.length o.tuning.delay }
{
    let span = Span {
        length: o.tuning.length,
        delay: o.tuning.delay,
    };
    Course {
        span,
        next: span,
        left: 0,
    }
}

// What a score's header opens, where it opens a voice.
fn opened(s: &[u8]) -> Result<Opening, Refusal>
    ensures { Opens s.now result }
{
    let o = opening(s)?;
    open::refused(o)?;
    Ok(o)
}

// How a score ends alone, given output enough.
pub fn alone(s: &[u8]) -> Result<usize, Stopped>
    ensures { EndsAs (Run s.now) (ended result) }
{
    match opened(s) {
        Ok(o) => play(o.tuning.order, o.advance, opening_course(o), &s[8..]),
        Err(refusal) => Err(Stopped { refusal, place: 0 }),
    }
}

// Puts the first 8 bytes of a score.
fn put_header(out: &mut [u8], s: &[u8])
    requires { (8 ≤ length s.now) × (8 ≤ length out.old) }
    ensures { out.new ≡ laid out.old 0 (take 8 s.now) }
{
    out[..8].copy_from_slice(&s[..8]);
}

// Merges two scores into the bytes lent, and returns how many bytes the merge has.
pub fn merge(first: &[u8], second: &[u8], bytes: &mut [u8]) -> Result<usize, Refusal>
    ensures { Answered first.now second.now bytes.old
        (code_of result) (length_of result) bytes.new }
{
    if !same_header(first, second) {
        return Err(Refusal::Headers);
    }
    if alone(first).is_err() {
        return Err(Refusal::Alone);
    }
    if alone(second).is_err() {
        return Err(Refusal::Alone);
    }
    if bytes.len() < 8 {
        return Err(Refusal::Merge);
    }
    let o = opening(first)?;
    let start = opening_course(o);
    walk(
        o.tuning.order,
        o.advance,
        start,
        first,
        second,
        bytes,
        false,
    )?;
    put_header(bytes, first);
    walk(o.tuning.order, o.advance, start, first, second, bytes, true)
}
