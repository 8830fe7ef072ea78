// Open: a resting voice, or document 01's voice of a refused opening; in `calls`, loss and pluck.
// A voice is a head, which goes by value, and a line, which is lent: no call copies it.
#![tactic(auto)]

ghost use Rattle.std.specs.Prelude.{◌≡◌};
ghost use Rattle.refusal.specs.Limits.{refusal as First};
ghost use Rattle.refusal.specs.Numbers.{code_of};
ghost use Rattle.refusal.specs.Returned.{AllKept};
ghost use Rattle.rule.specs.Calls.{open_limits, resting as resting_voice};
ghost use Rattle.rule.specs.State.{silence, fresh as fresh_state};
ghost use Rattle.voice.specs.Struct.{state_of};
ghost use Rattle.voice.specs.Valid.{Valid};
ghost use Rattle.open.specs.Opened.{nothing, opening_of, opened, Opens};

use integer::Value;
use refusal::{MOST_ADVANCE, MOST_LOSS, Refusal, within};
use voice::{Head, Pluck, Tuning, Waiting, resting, untuned};

pub mod calls;

// What a voice is opened with.
#[derive(Clone, Copy)]
pub struct Opening {
    pub tuning: Tuning,
    pub loss: u32,
    pub advance: u32,
}

#[derive(Clone, Copy)]
pub struct Voice {
    pub head: Head,
    pub line: [i32; 2112],
}

// What Open returns: not a Result of a voice, since a refused opening has a voice too.
#[derive(Clone, Copy)]
pub struct Opened {
    pub answer: Result<(), Refusal>,
    pub voice: Voice,
}

// What document 01's voice of a refused opening is opened with.
const REFUSED: Opening = Opening {
    tuning: Tuning {
        order: 1,
        length: 1,
        delay: 4_096,
    },
    loss: 0,
    advance: 0,
};

// What an opening is refused by: 1, 2, 3, 4, 5.
pub fn refused(o: Opening) -> Result<(), Refusal>
    ensures { code_of result ≡ First (open_limits (opening_of o)) }
{
    untuned(o.tuning)?;
    within(Refusal::Loss, o.loss, 0, MOST_LOSS)?;
    within(Refusal::Advance, o.advance, 0, MOST_ADVANCE)
}

// A resting voice.
fn fresh(o: Opening) -> Voice
    requires { AllKept (open_limits (opening_of o)) }
    ensures line_value { state_of result.head result.line ≡ record {
      voice = resting_voice (record { N = o.tuning.order; L = o.tuning.length; d = o.tuning.delay }) o.loss o.advance;
      line = silence;
    } }
    ensures valid { Valid result.head result.line }
{
    Voice {
        head: Head {
            filter: resting(o.tuning),
            loss: o.loss,
            advance: o.advance,
            last: Value { n: 0 },
            waiting: Waiting::Idle,
            pluck: Pluck {
                amplitude: 0,
                left: 0,
                noise: 0,
            },
            at: 0,
        },
        line: [0; 2112],
    }
}

// Document 01's voice of a refused opening.
pub fn refusal_voice() -> Voice
    ensures state { state_of result.head result.line ≡ fresh_state nothing }
    ensures valid { Valid result.head result.line }
{
    fresh(REFUSED)
}

// Open.
pub fn open(o: Opening) -> Opened
    ensures { Opens (opening_of o) (opened result) }
{
    let answer = refused(o);
    let kept = if answer.is_ok() { o } else { REFUSED };
    Opened {
        answer,
        voice: fresh(kept),
    }
}
