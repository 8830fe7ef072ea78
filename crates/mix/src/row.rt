// One string's part of the mix, by the voice's own loops.
ghost use Rattle.std.specs.Prelude.{◌≡◌, ◌*◌, ◌≤◌, pos, length, replicate};
ghost use Rattle.integer.specs.Rounding.{M};
ghost use Rattle.samples.specs.Samples.{loudest};
ghost use Rattle.voice.specs.Valid.{Valid};
ghost use Rattle.loops.specs.Fed.{fed_of};
ghost use Rattle.packed.specs.Words.{head_of};
ghost use Rattle.mix.specs.Rendered.{Rendered, Adds};

use crate::sums::add;
use packed::{pack, unpack};

// Renders samples in place.
fn render_fed(head: &mut [u32; 27], line: &mut [i32; 2112], buffer: &mut [i32])
    requires { Valid (head_of head.old) line.old × (loudest buffer.old ≤ M) }
    ensures { Rendered head.old line.old buffer.old head.new
        line.new buffer.new }
{
    *head = pack(render::render(line, unpack(head), buffer));
}

// Fills the buffer where 0 comes in at each sample.
fn render_unfed(head: &mut [u32; 27], line: &mut [i32; 2112], buffer: &mut [i32])
    requires { Valid (head_of head.old) line.old }
    ensures { Rendered head.old line.old
        (replicate (length buffer.old) (pos 0)) head.new line.new
        buffer.new }
{
    kept::blocks::play(head, line, buffer);
}

// Renders into the output, which is as long as the input: the input, where it is fed, else zeros.
pub fn render_string(
    head: &mut [u32; 27],
    line: &mut [i32; 2112],
    fed: bool,
    input: &[i32],
    output: &mut [i32],
)
    requires valid { Valid (head_of head.old) line.old × (length input.now ≡ length output.old) }
    requires input_bound { loudest (fed_of fed 0 input.now) ≤ M }
    ensures { Rendered head.old line.old (fed_of fed 0 input.now)
        head.new line.new output.new }
{
    if fed {
        samples::copy(input, output);
        render_fed(head, line, output);
    } else {
        render_unfed(head, line, output);
    }
}

// Renders into the room, which is as long as the input, and adds that to the sums.
pub fn add_string(
    head: &mut [u32; 27],
    line: &mut [i32; 2112],
    fed: bool,
    input: &[i32],
    room: &mut [i32],
    sums: &mut [i32],
)
    requires valid { Valid (head_of head.old) line.old × (length input.now ≡ length room.old) }
    requires input_len { (length input.now ≡ length sums.old) × (loudest (fed_of fed 0 input.now) ≤ M) }
    requires sums_bound { loudest sums.old ≤ 5 * M }
    ensures { Adds head.old line.old (fed_of fed 0 input.now)
        sums.old head.new line.new sums.new }
{
    render_string(head, line, fed, input, room);
    add(room, sums);
}
