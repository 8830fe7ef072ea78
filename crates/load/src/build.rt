// The head of a stored voice, made of its numbers, which are within their limits.
ghost use Rattle.std.specs.Prelude.{◌≡◌};
ghost use Rattle.form.specs.Numbers.{waiting_of as Waits};
ghost use Rattle.form.specs.Refusals.{FilterIn, ChangeIn};
ghost use Rattle.voice.specs.Struct.{tuning_of, waiting_of};
ghost use Rattle.voice.specs.Valid.{Waiting-valid};
ghost use Rattle.load.specs.Words.{three_of, change_of, Comes, HeadIn};
ghost use Rattle.load.specs.Loaded.{Makes, Builds};
ghost use Rattle.form.specs.Parts.{value};

use crate::words::{Change, Three, Words};
use allpass::State;
use integer::Value;
use octets::signed;
use voice::{Filter, Head, Kind, Tuning, Waiting};

// The number whose two's complement is w.
pub fn value_of(w: u32) -> Value
    ensures { result.n ≡ value w }
{
    signed(w as u64, 2_147_483_648)
}

fn state_of(v: Three) -> State
    ensures { result ≡ three_of v.a v.b v.c }
{
    State {
        v1: value_of(v.a).n,
        v2: value_of(v.b).n,
        v3: value_of(v.c).n,
    }
}

fn filter_of(tuning: Tuning, v: Three) -> Filter
    requires { FilterIn (tuning_of tuning) (three_of v.a v.b v.c) }
    ensures { Makes (tuning_of tuning) (three_of v.a v.b v.c) result }
{
    Filter {
        tuning,
        coefficients: thiran::formula::set(tuning.order, tuning.delay),
        state: state_of(v),
    }
}

// A change of kind 1 or 2.
fn prepared(advance: u32, c: Change) -> Waiting
    requires { Comes advance c }
    ensures { (waiting_of result ≡ Waits c.kind (change_of c)) × Waiting-valid advance result }
{
    let e = filter_of(c.tuning, c.state);
    if c.kind == 1 {
        return Waiting::Prepared(Kind::Announced, e, c.taken);
    }
    Waiting::Prepared(Kind::Asked, e, c.taken)
}

fn waiting_of(advance: u32, c: Change) -> Waiting
    requires { ChangeIn advance (change_of c) }
    ensures { (waiting_of result ≡ Waits c.kind (change_of c)) × Waiting-valid advance result }
{
    if c.kind == 0 {
        return Waiting::Idle;
    }
    prepared(advance, c)
}

pub fn head_of(w: Words) -> Head
    requires { HeadIn w }
    ensures { Builds w result }
{
    Head {
        filter: filter_of(w.tuning, w.state),
        loss: w.loss,
        advance: w.advance,
        last: value_of(w.last),
        waiting: waiting_of(w.advance, w.change),
        pluck: w.pluck,
        at: 0,
    }
}
