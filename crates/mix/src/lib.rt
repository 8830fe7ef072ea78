// The mix of six strings in memory that a host keeps: each takes the same input, and each output is the
// clipped sum of the six (document 02, L11). The block goes by parts of 64 samples: each string renders a
// part by the voice's own loops into a local array, which is added to the sums; they are clipped once. A
// sum of six samples fits 32 bits.
#![tactic(auto)]

ghost use Rattle.std.specs.Prelude.{◌≡◌, pos, length, replicate};
ghost use Rattle.refusal.specs.Numbers.{code_of};
ghost use Rattle.instrument.specs.Strings.{mix as Mix, mix_into};
ghost use Rattle.strings.specs.Rows.{strings_of, Voices, Played};

use crate::parts::through;
use refusal::Refusal;

mod parts;
mod row;
mod sums;

// A block of all six strings: an output for each input.
pub fn mix(
    heads: &mut [[u32; 27]; 6],
    lines: &mut [[i32; 2112]; 6],
    input: &[i32],
    output: &mut [i32],
) -> Result<(), Refusal>
    requires { Voices heads.old lines.old }
    ensures played { Played heads.old lines.old
        (Mix input.now (length output.old)) (code_of result)
        heads.new lines.new }
    ensures output_after { output.new
        ≡ mix_into (strings_of heads.old lines.old) input.now
        output.old }
{
    if input.len() != output.len() {
        return Err(Refusal::BlockLengths);
    }
    if !samples::sounds(input) {
        play(heads, lines, output);
        return Ok(());
    }
    if !samples::all_samples(input) {
        return Err(Refusal::Sample);
    }
    samples::copy(input, output);
    through(heads, lines, true, output);
    Ok(())
}

// A block of zeros, as long as the output, of all six strings, which is never refused: no input is read.
pub fn play(heads: &mut [[u32; 27]; 6], lines: &mut [[i32; 2112]; 6], output: &mut [i32])
    requires { Voices heads.old lines.old }
    ensures played { Played heads.old lines.old
        (Mix (replicate (length output.old) (pos 0)) (length output.old)) 0
        heads.new lines.new }
    ensures output_after { output.new
        ≡ mix_into (strings_of heads.old lines.old)
        (replicate (length output.old) (pos 0)) output.old }
{
    through(heads, lines, false, output);
}
