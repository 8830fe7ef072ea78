// A tube junction in memory that the host keeps: 16 words, which only these routines write. What a call requires is
// the junction's invariant, which an opening gives and each call hands on.
ghost use Rattle.std.specs.Prelude.{◌≡◌};
ghost use Rattle.junction.specs.Calls.{nothing, open_answer, answer, move as Move, sample as Sample};
ghost use Rattle.tube.specs.Struct.{junction_of};
ghost use Rattle.tube.specs.Valid.{Valid};
ghost use Rattle.tube.specs.Words.{from_words};

// Opens a junction, whatever the memory held.
#[unsafe(no_mangle)]
pub extern "C" fn jivaszte_junction_open(
    junction: &mut [u32; 16],
    left: u32,
    right: u32,
    d: u32,
    advance: u32,
) -> u32
    ensures junction_after { record {
      number = result;
      outputs = nothing;
      junction = junction_of (from_words junction.new);
    } ≡ open_answer (record { left = left; right = right; d = d; Na = advance }) }
    ensures valid { Valid (from_words junction.new) }
{
    jivaszte::junctions::jivaszte_junction_open(junction, left, right, d, advance)
}

// Announces a new delay.
#[unsafe(no_mangle)]
pub extern "C" fn jivaszte_junction_move(junction: &mut [u32; 16], d: u32) -> u32
    requires { Valid (from_words junction.old) }
    ensures junction_after { record {
      number = result;
      outputs = nothing;
      junction = junction_of (from_words junction.new);
    } ≡ answer (junction_of (from_words junction.old)) (Move d) }
    ensures valid { Valid (from_words junction.new) }
{
    jivaszte::junctions::jivaszte_junction_move(junction, d)
}

// One sample from each side.
#[unsafe(no_mangle)]
pub extern "C" fn jivaszte_junction_sample(
    junction: &mut [u32; 16],
    a: i32,
    b: i32,
    right: &mut i32,
    left: &mut i32,
) -> u32
    requires { Valid (from_words junction.old) }
    ensures junction_after { record {
      number = result;
      outputs = record { right = right.new; left = left.new };
      junction = junction_of (from_words junction.new);
    } ≡ answer (junction_of (from_words junction.old)) (Sample (record { a = a; b = b })) }
    ensures valid { Valid (from_words junction.new) }
{
    jivaszte::junctions::jivaszte_junction_sample(junction, a, b, right, left)
}
