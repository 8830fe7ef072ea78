// The limits of a stored voice's numbers, tested on their 32 bits: no test needs signed arithmetic.
ghost use Rattle.std.specs.Prelude.{◌≡◌, ◌+◌, ◌*◌, ◌^◌, ◌≤◌, ◌<◌, nat_abs, length};
ghost use Rattle.voice.specs.Struct.{tuning_of, pluck_of};
ghost use Rattle.allpass.specs.Bounds.{Within};
ghost use Rattle.form.specs.Parts.{value};
ghost use Rattle.form.specs.Refusals.{FilterIn, ChangeIn, AllZero};
ghost use Rattle.load.specs.Says.{Says, Past};
ghost use Rattle.load.specs.Words.{three_of, change_of, TakenIn, PluckIn, HeadIn, LineIn};

use crate::words::{Change, Three, Words};
use octets::four;
use voice::{Pluck, Tuning, untuned};

// The magnitude of a number in two's complement.
fn magnitude(w: u32) -> u32
    ensures { result ≡ nat_abs (value w) }
{
    if w < 2_147_483_648 {
        return w;
    }
    4_294_967_295 - w + 1
}

// The numbers of these magnitudes, the second and the third, are zero past the order.
fn past(order: u32, y: u32, z: u32) -> bool
    ensures { Says result (Past order y z) }
{
    if 2 < order {
        return true;
    }
    if z != 0 {
        return false;
    }
    if 1 < order {
        return true;
    }
    y == 0
}

// A tuning, and a state for it.
fn filter_in(tuning: Tuning, v: Three) -> bool
    ensures { Says result (FilterIn (tuning_of tuning) (three_of v.a v.b v.c)) }
{
    if untuned(tuning).is_err() {
        return false;
    }
    let x = magnitude(v.a);
    if 16_777_214 < x {
        return false;
    }
    let y = magnitude(v.b);
    if 16_777_214 < y {
        return false;
    }
    let z = magnitude(v.c);
    if 16_777_214 < z {
        return false;
    }
    past(tuning.order, y, z)
}

// Every number of a change is 0.
fn all_zero(c: Change) -> bool
    ensures { Says result (AllZero (change_of c)) }
{
    let t = c.tuning;
    let v = c.state;
    [c.kind, t.order, t.length, t.delay, c.taken, v.a, v.b, v.c] == [0; 8]
}

// How many samples a change of a kind has taken.
fn taken_in(advance: u32, kind: u32, taken: u32) -> bool
    ensures { Says result (TakenIn advance kind taken) }
{
    match kind {
        1 => taken < advance,
        2 => taken <= advance,
        _ => false,
    }
}

// What waits, if anything does.
fn change_in(advance: u32, c: Change) -> bool
    ensures { Says result (ChangeIn advance (change_of c)) }
{
    if c.kind == 0 {
        return all_zero(c);
    }
    if !taken_in(advance, c.kind, c.taken) {
        return false;
    }
    filter_in(c.tuning, c.state)
}

// The rest of a pluck.
fn pluck_in(p: Pluck) -> bool
    ensures { Says result (PluckIn (pluck_of p)) }
{
    if 255 < p.amplitude || 2_048 < p.left {
        return false;
    }
    p.left != 0 || p.amplitude == 0 && p.noise == 0
}

// All numbers but the line's.
pub fn head_in(w: Words) -> bool
    ensures { Says result (HeadIn w) }
{
    if !filter_in(w.tuning, w.state) {
        return false;
    }
    if 65_535 < w.loss {
        return false;
    }
    if 64 < w.advance {
        return false;
    }
    if 8_388_607 < magnitude(w.last) {
        return false;
    }
    if !pluck_in(w.pluck) {
        return false;
    }
    change_in(w.advance, w.change)
}

// Every number of the line that starts at a place is a sample. The loop goes to the end, whatever it meets: so it is
// compiled to take several numbers at a time.
fn all_samples(s: &[u8], at: usize) -> bool
    requires { at + 8448 ≤ length s.now }
    ensures { Says result (LineIn s.now at) }
{
    let mut good = true;
    for i in 0..2_112 {
        if 8_388_607 < magnitude(four(s, at + 4 * i) as u32) {
            good = false;
        }
    }
    good
}

// The line, where the form has one.
pub fn line_in(s: &[u8], at: usize, there: usize) -> bool
    requires { there ≡ 1 → at + 8448 ≤ length s.now }
    ensures { Says result (there ≡ 1 → LineIn s.now at) }
{
    if there == 1 {
        return all_samples(s, at);
    }
    true
}
