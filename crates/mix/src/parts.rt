// A block of all six strings by parts of 64 samples, rendered in place: each sample of the buffer is an
// input where one is fed, else 0 comes in, and becomes the mix. That is a flag and no Option of an input: the
// buffer is lent either way, and its length counts.
ghost use Rattle.std.specs.Prelude.{◌≡◌, ◌≤◌, ◌<◌, length};
ghost use Rattle.integer.specs.Rounding.{M};
ghost use Rattle.samples.specs.Samples.{loudest};
ghost use Rattle.loops.specs.Fed.{fed_of};
ghost use Rattle.strings.specs.Rows.{Voices};
ghost use Rattle.mix.specs.Rendered.{SumsUp, Mixes};

use crate::row::{add_string, render_string};
use crate::sums::clip;

// The sums of all six strings. The first string's output begins them.
fn sum_strings(
    heads: &mut [[u32; 27]; 6],
    lines: &mut [[i32; 2112]; 6],
    fed: bool,
    input: &[i32],
    room: &mut [i32],
    sums: &mut [i32],
)
    requires voices { Voices heads.old lines.old × (loudest (fed_of fed 0 input.now) ≤ M) }
    requires input_len { (length input.now ≡ length room.old) × (length input.now ≡ length sums.old) }
    ensures { SumsUp heads.old lines.old (fed_of fed 0 input.now)
        heads.new lines.new sums.new }
{
    render_string(&mut heads[0], &mut lines[0], fed, input, sums);
    for k in 1..6 {
        add_string(&mut heads[k], &mut lines[k], fed, input, room, sums);
    }
}

// A part, with room as long.
fn mix_part(
    heads: &mut [[u32; 27]; 6],
    lines: &mut [[i32; 2112]; 6],
    fed: bool,
    buffer: &mut [i32],
    room: &mut [i32],
    sums: &mut [i32],
)
    requires voices { Voices heads.old lines.old × (loudest (fed_of fed 0 buffer.old) ≤ M) }
    requires buffer_len { (length buffer.old ≡ length room.old) × (length buffer.old ≡ length sums.old) }
    ensures { Mixes heads.old lines.old (fed_of fed 0 buffer.old)
        heads.new lines.new buffer.new }
{
    sum_strings(heads, lines, fed, buffer, room, sums);
    clip(sums, buffer);
}

// A part, with room for it or more.
fn part(
    heads: &mut [[u32; 27]; 6],
    lines: &mut [[i32; 2112]; 6],
    fed: bool,
    buffer: &mut [i32],
    room: &mut [i32],
    sums: &mut [i32],
)
    requires voices { Voices heads.old lines.old × (loudest (fed_of fed 0 buffer.old) ≤ M) }
    requires buffer_in_bounds { (length buffer.old ≤ length room.old) × (length buffer.old ≤ length sums.old) }
    ensures { Mixes heads.old lines.old (fed_of fed 0 buffer.old)
        heads.new lines.new buffer.new }
{
    let n = buffer.len();
    mix_part(heads, lines, fed, buffer, &mut room[..n], &mut sums[..n]);
}

// Part after part: by no chunks_mut(64), after which a proof knows no sample of the buffer.
pub fn through(
    heads: &mut [[u32; 27]; 6],
    lines: &mut [[i32; 2112]; 6],
    fed: bool,
    buffer: &mut [i32],
)
    requires { Voices heads.old lines.old × (loudest (fed_of fed 0 buffer.old) ≤ M) }
    ensures { Mixes heads.old lines.old (fed_of fed 0 buffer.old)
        heads.new lines.new buffer.new }
{
    let mut room = [0i32; 64];
    let mut sums = [0i32; 64];
    let mut i = 0;
    while i < buffer.len() {
        let end = buffer.len().min(i + 64);
        part(heads, lines, fed, &mut buffer[i..end], &mut room, &mut sums);
        i = end;
    }
}
