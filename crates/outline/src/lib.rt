// What a run of a score looks at of its voice: L and d in force, and what waits. No sample is worked out, so the
// time does not grow with the waits. Contracts cite specs/Outline.antt.
#![tactic(auto)]

ghost use Rattle.std.specs.Prelude.{◌≡◌, ℕ, Ok, Err, MatchResult};
ghost use Rattle.refusal.specs.Limits.{refusal as First};
ghost use Rattle.refusal.specs.Numbers.{code_of};
ghost use Rattle.rule.specs.Voice.{tuning as RuleTuning};
ghost use Rattle.outline.specs.Outline.{Outline, passed as Passed, waits as Waits, change_tests};
ghost use Rattle.outline.specs.Outline.{result as outcome, loss_calls, pluck_calls};
ghost use Rattle.outline.specs.Struct.{ahead_of, outline_of, Asks, after_change, Changes, Acts};
ghost use Rattle.outline.specs.Struct.{Follows, ended, PlaysAll};

use follow::changes::chosen;
use follow::unread;
use record::{
    AMPLITUDE, COUNT, DELAY, HAS_AMPLITUDE, HAS_COUNT, HAS_DELAY, HAS_LENGTH, HAS_LOSS, INSTANT,
    LENGTH, LOSS, MAP, WAIT, bit, read_record,
};
use refusal::{LONGEST_PLUCK, LOUDEST_PLUCK, MOST_LOSS, Refusal, within};
use voice::{Tuning, untuned};

// What a change sets. Not a Tuning: a score keeps its order, which goes beside the course.
#[derive(Clone, Copy)]
pub struct Span {
    pub length: u32,
    pub delay: u32,
}

// L and d in force; those of a change that waits; and the samples that it still takes, 0 where none waits.
// Not an Option of what waits: a change with 0 samples to take is in force, so that its 0 says the same.
#[derive(Clone, Copy)]
pub struct Course {
    pub span: Span,
    pub next: Span,
    pub left: u32,
}

// What a record comes to on a course: the L and d of its change, refused too, and the course after it.
#[derive(Clone, Copy)]
pub struct Effect {
    pub span: Span,
    pub course: Result<Course, Refusal>,
}

// A run that is refused, at the place of a record.
#[derive(Clone, Copy)]
pub struct Stopped {
    pub refusal: Refusal,
    pub place: usize,
}

// After n samples, however many they are.
pub fn after_samples(c: Course, n: u32) -> Course
    ensures { outline_of result ≡ Passed n (outline_of c) }
{
    let left = c.left;
    if left == 0 {
        return c;
    }
    let next = c.next;
    if left <= n {
        return Course {
            span: next,
            next: next,
            left: 0,
        };
    }
    Course {
        left: left - n,
        ..c
    }
}

// What the loss of a record is refused by: 4.
fn loss_refused(r: &[u32; 9]) -> Result<(), Refusal>
    ensures { (Na : ℕ) (o : Outline) → code_of result ≡ outcome Na o (loss_calls r.now o) }
{
    if bit(r[MAP], HAS_LOSS) == 0 {
        return Ok(());
    }
    within(Refusal::Loss, r[LOSS], 0, MOST_LOSS)
}

// What its pluck is refused by: 7, 8.
fn pluck_refused(r: &[u32; 9]) -> Result<(), Refusal>
    ensures { (Na : ℕ) (o : Outline) → code_of result ≡ outcome Na o (pluck_calls r.now o) }
{
    let map = r[MAP];
    if bit(map, HAS_AMPLITUDE) == 0 {
        return Ok(());
    }
    within(Refusal::Amplitude, r[AMPLITUDE], 0, LOUDEST_PLUCK)?;
    let count = chosen(bit(map, HAS_COUNT), r[COUNT], 100);
    within(Refusal::Count, count, 1, LONGEST_PLUCK)
}

// The L and d to which a record changes: an absent one is that in force.
fn change_target(c: Course, r: &[u32; 9]) -> Span
    ensures { Asks (outline_of c) r.now result }
{
    let map = r[MAP];
    Span {
        length: chosen(bit(map, HAS_LENGTH), r[LENGTH], c.span.length),
        delay: chosen(bit(map, HAS_DELAY), r[DELAY], c.span.delay),
    }
}

// How many changes wait.
fn waits(left: u32) -> u32
    ensures { (L d : ℕ) → result ≡ Waits (ahead_of L d left) }
{
    if left == 0 { 0 } else { 1 }
}

// What a change to L and d is refused by: 1, 2, 3, 6.
fn change_refused(order: u32, c: Course, to: Span) -> Result<(), Refusal>
    ensures { code_of result ≡ First (change_tests (outline_of c) (RuleTuning order to.length to.delay)) }
{
    untuned(Tuning {
        order,
        length: to.length,
        delay: to.delay,
    })?;
    within(Refusal::ChangeWaits, waits(c.left), 0, 0)
}

// The course after a change to L and d that is accepted.
fn after_change(advance: u32, c: Course, to: Span, instant: u32) -> Course
    ensures { outline_of result ≡ after_change advance (outline_of c) to.length to.delay instant }
{
    if advance == 0 {
        return Course {
            span: to,
            next: to,
            left: 0,
        };
    }
    if instant != 0 {
        return Course {
            span: to,
            next: to,
            left: 0,
        };
    }
    Course {
        next: to,
        left: advance,
        ..c
    }
}

// The change of a record after its wait.
fn change(order: u32, advance: u32, c: Course, r: &[u32; 9]) -> Result<Course, Refusal>
    ensures { Changes order advance (outline_of c) r.now result }
{
    let map = r[MAP];
    if bit(map, HAS_LENGTH) + bit(map, HAS_DELAY) == 0 {
        return Ok(c);
    }
    let to = change_target(c, r);
    change_refused(order, c, to)?;
    Ok(after_change(advance, c, to, bit(map, INSTANT)))
}

// What a record sets after its wait.
fn act(order: u32, advance: u32, c: Course, r: &[u32; 9]) -> Result<Course, Refusal>
    ensures { Acts order advance (outline_of c) r.now result }
{
    loss_refused(r)?;
    let next = change(order, advance, c, r)?;
    pluck_refused(r)?;
    Ok(next)
}

// A record: its wait, and what it sets.
pub fn follow(order: u32, advance: u32, c: Course, r: &[u32; 9]) -> Effect
    ensures { Follows order advance (outline_of c) r.now result }
{
    let waited = after_samples(c, r[WAIT]);
    Effect {
        span: change_target(waited, r),
        course: act(order, advance, waited, r),
    }
}

// An answer to the record at a place.
fn at<T>(place: usize, answer: Result<T, Refusal>) -> Result<T, Stopped>
    ensures { MatchResult answer (λ x. result ≡ Ok x)
        (λ r. result ≡ Err (record { refusal = r; place = place })) }
{
    answer.map_err(|refusal| Stopped { refusal, place })
}

// The records of a score on a course, given output enough; returns how many they are.
pub fn play(order: u32, advance: u32, start: Course, records: &[u8]) -> Result<usize, Stopped>
    ensures { PlaysAll order advance (outline_of start) records.now (ended result) }
{
    let mut c = start;
    let mut t = records;
    let mut place = 0;
    let mut r = [0u32; 9];
    // Not a `for`: a record's length is known once it is read.
    while !t.is_empty() {
        let rest = read_record(t, &mut r);
        at(place, unread(&r))?;
        c = at(place, follow(order, advance, c, &r).course)?;
        t = rest;
        place += 1;
    }
    Ok(place)
}
