// Samples from a voice in lent memory: a block, with the caller's input or with none.
ghost use Rattle.std.specs.Prelude.{◌≡◌, true, ◌≤◌, pos, length, replicate};
ghost use Rattle.samples.specs.Samples.{loudest};
ghost use Rattle.refusal.specs.Numbers.{code_of};
ghost use Rattle.rule.specs.Calls.{block as Block};
ghost use Rattle.voice.specs.Valid.{Valid};
ghost use Rattle.voice.specs.Called.{On, lent};
ghost use Rattle.loops.specs.Rendered.{Unfed};
ghost use Rattle.packed.specs.Words.{head_of};
ghost use Rattle.kept.specs.Lent.{answer_of};

use loops::carried::after;
use packed::{pack, unpack};
use refusal::Refusal;
use render::{begin, rest};
use voice::Head;

// Renders the output where 0 comes in at each sample: its first stretch while the head stays where it is,
// which short blocks end with, and the rest of it, if any.
fn unfed(line: &mut [i32; 2112], head: Head, output: &mut [i32]) -> Head
    requires { Valid head line.old }
    ensures { Unfed output.old head line.old output.new result
        line.new }
{
    let p = begin(line, head, output);
    let n = p.ran.done;
    let k = after(head, p);
    if n == output.len() {
        return k;
    }
    rest(line, k, n, output)
}

// As many inputs as outputs, and all of them 0.
fn is_silent(input: &[i32], room: usize) -> bool
    ensures { result ≡ true → (length input.now ≡ room) × (loudest input.now ≤ 0) }
{
    input.len() == room && !samples::sounds(input)
}

// A block: an output for each input.
pub fn feed(
    head: &mut [u32; 27],
    line: &mut [i32; 2112],
    input: &[i32],
    output: &mut [i32],
) -> Result<(), Refusal>
    requires { Valid (head_of head.old) line.old }
    ensures on { On (head_of head.old) line.old
        (Block input.now (length output.old)) (answer_of (code_of result) head.new)
        line.new }
    ensures output_after { output.new
        ≡ lent (head_of head.old) line.old
        (Block input.now (length output.old)) output.old }
{
    if is_silent(input, output.len()) {
        play(head, line, output);
        return Ok(());
    }
    *head = pack(block::block(line, unpack(head), input, output)?);
    Ok(())
}

// A block of zeros, as long as the output, which is never refused: no input is read.
pub fn play(head: &mut [u32; 27], line: &mut [i32; 2112], output: &mut [i32])
    requires { Valid (head_of head.old) line.old }
    ensures on { On (head_of head.old) line.old
        (Block (replicate (length output.old) (pos 0)) (length output.old))
        (answer_of 0 head.new) line.new }
    ensures output_after { output.new
        ≡ lent (head_of head.old) line.old
        (Block (replicate (length output.old) (pos 0)) (length output.old))
        output.old }
{
    *head = pack(unfed(line, unpack(head), output));
}
