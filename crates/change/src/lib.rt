// The changes of order, length and delay: announced, asked for, and instant.
// An eliminator starts at rest; an instant one is run over samples that the line still holds.
#![tactic(auto)]

ghost use Rattle.std.specs.Prelude.{◌≡◌, ◌≤◌, ◌<◌, length};
ghost use Rattle.integer.specs.Rounding.{M};
ghost use Rattle.allpass.specs.Bounds.{Within};
ghost use Rattle.refusal.specs.Numbers.{code_of};
ghost use Rattle.rule.specs.Calls.{prepare as Prepare, announce as Announce, ask as Ask};
ghost use Rattle.rule.specs.Calls.{instant as Instant, count as Count};
ghost use Rattle.rule.specs.Calls.{window};
ghost use Rattle.rule.specs.Tests.{waitings};
ghost use Rattle.rule.specs.State.{back};
ghost use Rattle.line.specs.Ring.{ring};
ghost use Rattle.voice.specs.Struct.{tuning_of, kind_of, waiting_of, voice_of};
ghost use Rattle.voice.specs.Valid.{Tuned, Fit, Valid};
ghost use Rattle.step.specs.Sample.{Ran};
ghost use Rattle.voice.specs.Called.{Called, On, answered};
ghost use Rattle.change.specs.Refused.{RefusedBy};
ghost use Rattle.change.specs.Started.{started_of};
ghost use Rattle.change.specs.Instantly.{changed_of, count_of};

use refusal::{Refusal, within};
use step::filter::moved;
use voice::{Filter, Head, Kind, Tuning, Waiting, resting, settle, untuned, with};

pub mod asked;

// What an instant change leaves: count is the number of samples that its eliminator was run over.
#[derive(Clone, Copy)]
pub struct Changed {
    pub head: Head,
    pub count: u32,
}

// What a run over stored samples left: the eliminator, and how many samples it took.
#[derive(Clone, Copy)]
pub struct Run {
    pub filter: Filter,
    pub count: u32,
}

// How many changes wait: none or one.
fn waiting(w: Waiting) -> u32
    ensures { result ≡ waitings (waiting_of w) }
{
    match w {
        Waiting::Idle => 0,
        Waiting::Prepared(_, _, _) => 1,
    }
}

// What a change is refused by: 1, 2, 3, then 6.
fn refused(h: Head, to: Tuning) -> Result<(), Refusal>
    ensures { RefusedBy h to.order to.length to.delay (code_of result) }
{
    untuned(to)?;
    within(Refusal::ChangeWaits, waiting(h.waiting), 0, 0)
}

// The eliminator that a change starts with which is to wait, whichever its kind.
pub fn ready(head: Head, to: Tuning) -> Result<Filter, Refusal>
    requires { Fit head }
    ensures { (k : Kind) → Called head (Prepare (kind_of k) (tuning_of to)) (started_of head k result) }
{
    refused(head, to)?;
    Ok(resting(to))
}

// Starts an eliminator at rest, whose change waits as this kind does.
fn prepare(head: Head, kind: Kind, to: Tuning) -> Result<Head, Refusal>
    requires { Fit head }
    ensures { Called head (Prepare (kind_of kind) (tuning_of to)) (answered head result) }
{
    let e = ready(head, to)?;
    Ok(settle(head, kind, e, 0))
}

// Announces a change, which takes effect after as many samples as the advance.
pub fn announce(head: Head, to: Tuning) -> Result<Head, Refusal>
    requires { Fit head }
    ensures { Called head (Announce (tuning_of to)) (answered head result) }
{
    prepare(head, Kind::Announced, to)
}

// Asks for a change, which takes effect when it is committed.
pub fn ask(head: Head, to: Tuning) -> Result<Head, Refusal>
    requires { Fit head }
    ensures { Called head (Ask (tuning_of to)) (answered head result) }
{
    prepare(head, Kind::Asked, to)
}

// Runs the eliminator f over the last reads of the line, as many as the advance, and counts them.
fn prepared(line: &[i32; 2112], f: Filter, at: usize, advance: u32) -> Run
    requires { Tuned f × (at < 2112) × (advance ≤ 64) × Within M (ring at line.now) }
    ensures ran { Ran f (window (back (ring at line.now)) f.tuning.length advance) result.filter }
    ensures count_value { result.count
        ≡ length (window (back (ring at line.now)) f.tuning.length advance) }
{
    let mut filter = f;
    let mut count = 0;
    for left in (1..=advance).rev() {
        let x = line::read(line, at, (f.tuning.length + left) as usize);
        filter = moved(filter, x);
        count = count + 1;
    }
    Run { filter, count }
}

// Changes at once, from an eliminator that is run first over as many samples as the advance.
pub fn instant(line: &[i32; 2112], head: Head, to: Tuning) -> Result<Changed, Refusal>
    requires { Valid head line.now }
    ensures on { On head line.now (Instant (tuning_of to)) (changed_of head result) line.now }
    ensures count_value { count_of result
        ≡ Count (voice_of head) (back (ring head.at line.now)) (Instant (tuning_of to)) }
{
    refused(head, to)?;
    let e = resting(to);
    let run = prepared(line, e, head.at, head.advance);
    Ok(Changed {
        head: with(head, run.filter, Waiting::Idle),
        count: run.count,
    })
}
