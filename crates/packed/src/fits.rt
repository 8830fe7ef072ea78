// Whether the words are the head of a voice: the voice's invariant, tested for memory that came from elsewhere.
ghost use Rattle.std.specs.Prelude.{◌≡◌, true, ◌↔◌};
ghost use Rattle.voice.specs.Valid.{Tuned, Waiting-valid, Plucked, Fit};
ghost use Rattle.packed.specs.Words.{head_of};
ghost use Rattle.packed.specs.Tests.{most_of as Most, StateIn, NumbersIn};

use crate::unpack;
use allpass::State;
use refusal::{LONGEST_PLUCK, LOUDEST_PLUCK, MOST_ADVANCE, MOST_LOSS};
use voice::{Filter, Head, Kind, Pluck, Waiting, untuned};

// The largest magnitude of the k-th number of a state: 0 past the order.
fn most_of(order: u32, k: u32) -> u64
    ensures { result ≡ Most order k }
{
    if k <= order { 16_777_214 } else { 0 }
}

// The numbers of a state of an order.
fn state_fits(order: u32, v: State) -> bool
    ensures { (result ≡ true) ↔ StateIn order v }
{
    v.v1.unsigned_abs() <= 16_777_214
        && v.v2.unsigned_abs() <= most_of(order, 2)
        && v.v3.unsigned_abs() <= most_of(order, 3)
}

// A filter: its tuning, its coefficients and its state.
fn filter_fits(f: Filter) -> bool
    ensures { (result ≡ true) ↔ Tuned f }
{
    let t = f.tuning;
    if untuned(t).is_err() {
        return false;
    }
    if f.coefficients != thiran::formula::set(t.order, t.delay) {
        return false;
    }
    state_fits(t.order, f.state)
}

// A change that waits, or none.
fn waiting_fits(advance: u32, w: Waiting) -> bool
    ensures { (result ≡ true) ↔ Waiting-valid advance w }
{
    match w {
        Waiting::Idle => true,
        Waiting::Prepared(Kind::Announced, e, taken) => taken < advance && filter_fits(e),
        Waiting::Prepared(Kind::Asked, e, taken) => taken <= advance && filter_fits(e),
    }
}

// The rest of a pluck: all 0 where no step is left.
fn pluck_fits(p: Pluck) -> bool
    ensures { (result ≡ true) ↔ Plucked p }
{
    p.amplitude <= LOUDEST_PLUCK
        && p.left <= LONGEST_PLUCK
        && (p.left != 0 || p.amplitude == 0 && p.noise == 0)
}

// The numbers of a head beside those of its filters and its pluck.
fn numbers_fit(h: Head) -> bool
    ensures { (result ≡ true) ↔ NumbersIn h }
{
    h.loss <= MOST_LOSS
        && h.advance <= MOST_ADVANCE
        && h.last.n.unsigned_abs() <= 8_388_607
        && h.at < 2_112
}

fn head_fits(h: Head) -> bool
    ensures { (result ≡ true) ↔ Fit h }
{
    if !filter_fits(h.filter) {
        return false;
    }
    if !waiting_fits(h.advance, h.waiting) {
        return false;
    }
    if !pluck_fits(h.pluck) {
        return false;
    }
    numbers_fit(h)
}

// The words are the head of a voice.
pub fn fits(words: &[u32; 27]) -> bool
    ensures { (result ≡ true) ↔ Fit (head_of words.now) }
{
    head_fits(unpack(words))
}
