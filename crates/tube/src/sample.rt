// One sample of a junction, from each side.
ghost use Rattle.std.specs.Prelude.{◌≡◌, ◌≤◌, IfOk};
ghost use Rattle.junction.specs.Junction.{feed_waiting, step as Next, to_right, to_left};
ghost use Rattle.junction.specs.Calls.{answer, sample as Sample};
ghost use Rattle.tube.specs.Struct.{pair_of, waiting_of, junction_of, sampled};
ghost use Rattle.tube.specs.Valid.{Samples, Waits, Counts, Valid};

use crate::filters::{Pair, feed_both, pass_both};
use crate::scatter::{to_left, to_right};
use crate::{Junction, Move, settle};
use integer::Value;
use refusal::Refusal;
use samples::all_samples;

// What a sample returns: what goes to the right, and to the left.
#[derive(Clone, Copy)]
pub struct Step {
    pub right: i32,
    pub left: i32,
    pub junction: Junction,
}

// What waits after its eliminators took x.
fn feed(advance: u32, w: Option<Move>, x: Pair) -> Option<Move>
    requires { (advance ≤ 64) × Waits advance w × Samples x }
    ensures { (waiting_of result ≡ feed_waiting (waiting_of w) (pair_of x)) × Counts advance result }
{
    let m = w?;
    Some(Move {
        taken: m.taken + 1,
        filters: feed_both(m.filters, x),
        ..m
    })
}

// An accepted sample.
fn accept(j: Junction, x: Pair) -> Step
    requires { Valid j × Samples x }
    ensures { (result.right ≡ to_right (junction_of j) (pair_of x))
        × (result.left ≡ to_left (junction_of j) (pair_of x))
        × (junction_of result.junction ≡ Next (junction_of j) (pair_of x)) × Valid result.junction }
{
    let p = pass_both(j.filters, x);
    let right = to_right(j.r, j.last.a, p.y.b);
    let left = to_left(j.r, p.y.a, j.last.b);
    let w = feed(j.advance, j.waiting, x);
    let taken = Junction {
        filters: p.filters,
        last: x,
        waiting: None,
        ..j
    };
    Step {
        right: right.n as i32,
        left: left.n as i32,
        junction: settle(taken, w),
    }
}

// One sample from each side.
pub fn sample(j: Junction, a: i32, b: i32) -> Result<Step, Refusal>
    requires { Valid j }
    ensures { (sampled j result ≡ answer (junction_of j) (Sample (record { a = a; b = b })))
        × IfOk result (λ s. Valid s.junction) }
{
    if !all_samples(&[a, b]) {
        return Err(Refusal::Sample);
    }
    let x = Pair {
        a: Value { n: i64::from(a) },
        b: Value { n: i64::from(b) },
    };
    Ok(accept(j, x))
}
