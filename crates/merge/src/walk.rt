// Both scores together, record by record: whether the merge plays and fits, and its bytes.
ghost use Rattle.std.specs.Prelude.{◌+◌, ◌≤◌, ◌<◌, length, get_or};
ghost use Rattle.record.specs.Record.{bytes as Bytes};
ghost use Rattle.outline.specs.Struct.{outline_of};
ghost use Rattle.merge.specs.Left.{LeftAt};
ghost use Rattle.merge.specs.Walk.{AnyLeft, Puts, begin, all_of, Walks};

use crate::fields::{put_record, size};
use crate::turn::take_turn;
use crate::{Pair, Side};
use outline::{Course, follow};
use record::MAP;
use refusal::Refusal;

// Whether a record of either score is left.
fn any_left(first: &[u8], second: &[u8], p: Pair) -> bool
    ensures { AnyLeft first.now second.now p result }
{
    if p.first.at < first.len() {
        return true;
    }
    p.second.at < second.len()
}

// Puts a record where the walk writes.
fn put_next(out: &mut [u8], at: usize, q: &[u32; 9], writes: bool)
    requires { (get_or q.now 1 0 < 256) × (at + Bytes (get_or q.now 1 0) ≤ length out.old) }
    ensures { Puts out.old at q.now writes out.new }
{
    if !writes {
        return;
    }
    put_record(out, at, q);
}

// The walk: with `writes` the records are put behind the header. The room is tested before each, so that the length
// never grows past it.
// A flag and not an Option of the slice: without a write the walk tests the slice's room all the same.
pub fn walk(
    order: u32,
    advance: u32,
    start: Course,
    first: &[u8],
    second: &[u8],
    out: &mut [u8],
    writes: bool,
) -> Result<usize, Refusal>
    requires { (8 ≤ length out.old)
        × LeftAt order advance first.now second.now (begin start)
        (all_of order advance (outline_of start) first.now second.now) }
    ensures { Walks order advance (outline_of start)
        (all_of order advance (outline_of start) first.now second.now)
        out.old writes result out.new }
{
    let s = Side {
        at: 8,
        since: 0,
        course: start,
    };
    let mut p = Pair {
        first: s,
        second: s,
    };
    let mut c = start;
    let mut done: usize = 8;
    let mut q = [0u32; 9];
    while any_left(first, second, p) {
        p = take_turn(order, advance, first, second, p, &mut q);
        let Ok(next) = follow(order, advance, c, &q).course else {
            return Err(Refusal::Merge);
        };
        let n = size(q[MAP]);
        if out.len() - done < n {
            return Err(Refusal::Merge);
        }
        put_next(out, done, &q, writes);
        c = next;
        done += n;
    }
    Ok(done)
}
