// A block: an output for each input, rendered in place. Zeros that come in need not be copied to the output.
// Both refusals come before anything is done.
#![tactic(auto)]

ghost use Rattle.std.specs.Prelude.{◌≡◌, ◌≤◌, length};
ghost use Rattle.integer.specs.Rounding.{M};
ghost use Rattle.samples.specs.Samples.{loudest};
ghost use Rattle.rule.specs.Calls.{block as Block};
ghost use Rattle.rule.specs.State.{block_after, block_out};
ghost use Rattle.voice.specs.Struct.{state_of};
ghost use Rattle.voice.specs.Valid.{Valid};
ghost use Rattle.voice.specs.Called.{On, answered, lent};

use refusal::Refusal;
use render::{render, silent};
use voice::Head;

// Renders the input, of samples alone, into the output, which is as long.
fn rendered(line: &mut [i32; 2112], head: Head, input: &[i32], output: &mut [i32]) -> Head
    requires valid { Valid head line.old × (length input.now ≡ length output.old) }
    requires input_bound { loudest input.now ≤ M }
    ensures line_after { state_of result line.new
        ≡ block_after (state_of head line.old) input.now }
    ensures output_after { output.new
        ≡ block_out (state_of head line.old) input.now }
    ensures valid_2 { Valid result line.new }
{
    samples::copy(input, output);
    render(line, head, output)
}

// A block of samples: an output for each input.
pub fn block(
    line: &mut [i32; 2112],
    head: Head,
    input: &[i32],
    output: &mut [i32],
) -> Result<Head, Refusal>
    requires { Valid head line.old }
    ensures on { On head line.old (Block input.now (length output.old)) (answered head result)
        line.new }
    ensures output_after { output.new
        ≡ lent head line.old (Block input.now (length output.old))
        output.old }
{
    if input.len() != output.len() {
        return Err(Refusal::BlockLengths);
    }
    if !samples::sounds(input) {
        return Ok(silent(line, head, output));
    }
    if !samples::all_samples(input) {
        return Err(Refusal::Sample);
    }
    Ok(rendered(line, head, input, output))
}
