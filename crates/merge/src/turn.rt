// One turn of a merge: the record that comes next, of the first score unless the second's is earlier.
ghost use Rattle.std.specs.Prelude.{◌≡◌, List, ℕ, ◌+◌, ◌-◌, ◌≤◌, ◌<◌, length};
ghost use Rattle.merge.specs.Left.{LeftAt, OnWay, Took};
ghost use Rattle.merge.specs.Turn.{wait_left, Next, Choosable, Chosen, Steps, Later};

use crate::fields::merge_record;
use crate::{Choice, Pair, Side};
use outline::follow;
use record::{WAIT, read_record};

// How many samples a score's next record still waits.
fn wait_left(score: &[u8], s: Side) -> u32
    requires { Next score.now s }
    ensures { result ≡ wait_left score.now s }
{
    let at = s.at;
    let mut r = [0u32; 9];
    read_record(&score[at..], &mut r);
    r[WAIT] - s.since
}

// The record that comes next. At equal moments it is the first score's.
fn turn(first: &[u8], second: &[u8], p: Pair) -> Choice
    requires { Choosable first.now second.now p }
    ensures { Chosen first.now second.now p result }
{
    let a = p.first;
    let b = p.second;
    if second.len() <= b.at {
        return Choice::First(wait_left(first, a));
    }
    if first.len() <= a.at {
        return Choice::Second(wait_left(second, b));
    }
    let x = wait_left(first, a);
    let y = wait_left(second, b);
    if x <= y {
        return Choice::First(x);
    }
    Choice::Second(y)
}

// The score whose record it is, behind that record; q becomes the merged record.
fn step(order: u32, advance: u32, score: &[u8], s: Side, wait: u32, q: &mut [u32; 9]) -> Side
    requires { s.at ≤ length score.now }
    ensures { Steps order advance score.now s wait result q.new }
{
    let at = s.at;
    let mut r = [0u32; 9];
    let rest = read_record(&score[at..], &mut r);
    let e = follow(order, advance, s.course, &r);
    merge_record(wait, e.span, &r, q);
    Side {
        at: score.len() - rest.len(),
        since: 0,
        course: e.course.unwrap_or(s.course),
    }
}

// The other score, so many samples later.
fn later(score: &[u8], s: Side, wait: u32) -> Side
    requires { s.at < length score.now → s.since + wait < 65536 }
    ensures { Later score.now s wait result }
{
    if score.len() <= s.at {
        return s;
    }
    Side {
        since: s.since + wait,
        ..s
    }
}

// Both scores behind the record that comes next; q becomes the merged record.
pub fn take_turn(
    order: u32,
    advance: u32,
    first: &[u8],
    second: &[u8],
    p: Pair,
    q: &mut [u32; 9],
) -> Pair
    requires { OnWay order advance first.now second.now p }
    ensures { (ls : List (List ℕ)) → LeftAt order advance first.now second.now p ls
        → Took order advance first.now second.now ls p result q.new }
{
    let a = p.first;
    let b = p.second;
    match turn(first, second, p) {
        Choice::First(wait) => {
            let x = step(order, advance, first, a, wait, q);
            Pair {
                first: x,
                second: later(second, b, wait),
            }
        }
        Choice::Second(wait) => {
            let y = step(order, advance, second, b, wait, q);
            Pair {
                first: later(first, a, wait),
                second: y,
            }
        }
    }
}
