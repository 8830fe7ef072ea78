// The delay line of a voice: an array used as a ring, lent for each sample and never copied.
// Contracts speak of its samples newest first, `ring`, and not of where they stand.
#![tactic(auto)]

ghost use Rattle.std.specs.Prelude.{◌≡◌, ◌∷◌, ◌+◌, ◌-◌, ◌%◌, ◌≤◌, ◌<◌, pos, nat_abs, get_or, take};
ghost use Rattle.integer.specs.Rounding.{M};
ghost use Rattle.line.specs.Ring.{ring, Apart};

use integer::Value;

// The sample written k steps before the one that goes to place at: s(n − k).
pub fn read(line: &[i32; 2112], at: usize, k: usize) -> Value
    requires { (at < 2112) × (1 ≤ k) × (k ≤ 2112) }
    ensures { result.n ≡ get_or (ring at line.now) (k - 1) (pos 0) }
{
    samples::read(line, place(at, k))
}

// The place that is k steps before at, round the ring.
pub fn place(at: usize, k: usize) -> usize
    requires { (at < 2112) × (1 ≤ k) × (k ≤ 2112) }
    ensures { result ≡ (at + 2112 - k) % 2112 }
{
    if k <= at { at - k } else { at + 2_112 - k }
}

// How many of n samples can be written from place at on, and read k steps before them, until one of the two
// places comes to the ring's end.
pub fn room(at: usize, k: usize, n: usize) -> usize
    requires { (at < 2112) × (1 ≤ k) × (k ≤ 2112) }
    ensures { (result ≤ n) × Apart at k result }
{
    let p = place(at, k);
    n.min(2_112 - at).min(2_112 - p)
}

// A place, round the ring.
pub fn round(at: usize) -> usize
    requires { at ≤ 2112 }
    ensures { result ≡ at % 2112 }
{
    if at == 2_112 { 0 } else { at }
}

// Puts a sample at place at, over the oldest, and returns the place of the next.
pub fn write(line: &mut [i32; 2112], at: usize, s: Value) -> usize
    requires { (at < 2112) × (nat_abs s.n ≤ M) }
    ensures { (result < 2112)
        × (ring result line.new ≡ s.n ∷ take 2111 (ring at line.old)) }
{
    samples::write(line, at, s);
    round(at + 1)
}
