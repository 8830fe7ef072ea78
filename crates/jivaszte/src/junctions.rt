// A tube junction in memory that the host keeps: 16 words, which only these routines write. What a call requires is
// the junction's invariant, which an opening gives and each call hands on.
ghost use Rattle.std.specs.Prelude.{◌≡◌};
ghost use Rattle.junction.specs.Calls.{nothing, open_answer, answer, move as Move, sample as Sample};
ghost use Rattle.tube.specs.Struct.{junction_of};
ghost use Rattle.tube.specs.Valid.{Valid};
ghost use Rattle.tube.specs.Words.{from_words};

use refusal::code;
use tube::memory::{pack, unpack};

// Opens a junction, whatever the memory held.
pub fn jivaszte_junction_open(
    junction: &mut [u32; 16],
    left: u32,
    right: u32,
    d: u32,
    advance: u32,
) -> u32
    ensures junction_after { record {
      number = result;
      outputs = nothing;
      junction = junction_of (from_words junction.new);
    } ≡ open_answer (record { left = left; right = right; d = d; Na = advance }) }
    ensures valid { Valid (from_words junction.new) }
{
    let o = tube::open::open(left, right, d, advance);
    *junction = pack(o.junction);
    code(o.answer)
}

// Announces a new delay.
pub fn jivaszte_junction_move(junction: &mut [u32; 16], d: u32) -> u32
    requires { Valid (from_words junction.old) }
    ensures junction_after { record {
      number = result;
      outputs = nothing;
      junction = junction_of (from_words junction.new);
    } ≡ answer (junction_of (from_words junction.old)) (Move d) }
    ensures valid { Valid (from_words junction.new) }
{
    match tube::moves::start_move(unpack(junction), d) {
        Ok(j) => {
            *junction = pack(j);
            0
        }
        Err(refusal) => refusal.number(),
    }
}

// One sample from each side.
pub fn jivaszte_junction_sample(
    junction: &mut [u32; 16],
    a: i32,
    b: i32,
    right: &mut i32,
    left: &mut i32,
) -> u32
    requires { Valid (from_words junction.old) }
    ensures junction_after { record {
      number = result;
      outputs = record { right = right.new; left = left.new };
      junction = junction_of (from_words junction.new);
    } ≡ answer (junction_of (from_words junction.old)) (Sample (record { a = a; b = b })) }
    ensures valid { Valid (from_words junction.new) }
{
    match tube::sample::sample(unpack(junction), a, b) {
        Ok(s) => {
            *junction = pack(s.junction);
            *right = s.right;
            *left = s.left;
            0
        }
        Err(refusal) => {
            *right = 0;
            *left = 0;
            refusal.number()
        }
    }
}
