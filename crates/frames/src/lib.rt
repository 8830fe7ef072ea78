// Frames (document 02, L13): one sample as f32 goes to all six strings, and the two sides come back as f32.
// Each string takes one step of the voice by itself: no buffer is filled. Contracts cite specs/Frames.antt.
#![tactic(auto)]

ghost use Rattle.std.specs.Prelude.{◌≡◌, ◌≤◌, nat_abs, ◌+ℤ◌};
ghost use Rattle.integer.specs.Rounding.{M, clip as Clip};
ghost use Rattle.refusal.specs.Numbers.{code_of};
ghost use Rattle.voice.specs.Valid.{Valid};
ghost use Rattle.packed.specs.Words.{head_of};
ghost use Rattle.strings.specs.Rows.{Voices};
ghost use Rattle.frames.specs.Frames.{framed, Framed};
ghost use Rattle.frames.specs.Steps.{Row, OneString, Side, Sides};

use floats::frame::{Frame, frame_of};
use integer::arithmetic::plus;
use integer::{Value, clip};
use packed::{pack, unpack};
use refusal::Refusal;

// One sample of the string in a row.
fn row_sample(head: &mut [u32; 27], line: &mut [i32; 2112], x: Value) -> Value
    requires { Valid (head_of head.old) line.old × (nat_abs x.n ≤ M) }
    ensures { Row head.old line.old x.n result.n head.new
        line.new }
{
    let stepped = step::step(line, unpack(head), x);
    *head = pack(stepped.head);
    stepped.y
}

// One sample of a string.
fn string_sample(
    heads: &mut [[u32; 27]; 6],
    lines: &mut [[i32; 2112]; 6],
    k: usize,
    x: Value,
) -> Value
    requires { Voices heads.old lines.old × (k ≤ 5) × (nat_abs x.n ≤ M) }
    ensures { OneString heads.old lines.old k x.n result.n heads.new
        lines.new }
{
    row_sample(&mut heads[k], &mut lines[k], x)
}

// The clipped sum of three samples.
fn clip_sum(a: Value, b: Value, c: Value) -> Value
    requires { (nat_abs a.n ≤ M) × (nat_abs b.n ≤ M) × (nat_abs c.n ≤ M) }
    ensures { result.n ≡ Clip ((a.n +ℤ b.n) +ℤ c.n) }
{
    clip(plus(plus(a, b), c))
}

// One sample of three strings, from string k on.
fn side(heads: &mut [[u32; 27]; 6], lines: &mut [[i32; 2112]; 6], k: usize, x: Value) -> Value
    requires { Voices heads.old lines.old × (k ≤ 3) × (nat_abs x.n ≤ M) }
    ensures { Side heads.old lines.old k x.n result.n heads.new
        lines.new }
{
    let a = string_sample(heads, lines, k, x);
    let b = string_sample(heads, lines, k + 1, x);
    let c = string_sample(heads, lines, k + 2, x);
    clip_sum(a, b, c)
}

// Strings 0 to 2 left, and 3 to 5 right.
fn sides(heads: &mut [[u32; 27]; 6], lines: &mut [[i32; 2112]; 6], x: Value) -> Frame
    requires { Voices heads.old lines.old × (nat_abs x.n ≤ M) }
    ensures { Sides heads.old lines.old x.n result heads.new
        lines.new }
{
    let a = side(heads, lines, 0, x);
    let b = side(heads, lines, 3, x);
    frame_of(a.n as i32, b.n as i32)
}

// One frame: each string takes the sample.
pub fn frame(
    heads: &mut [[u32; 27]; 6],
    lines: &mut [[i32; 2112]; 6],
    x: f32,
) -> Result<Frame, Refusal>
    requires { Voices heads.old lines.old }
    ensures { Framed heads.old lines.old x (code_of result) (framed result)
        heads.new lines.new }
{
    let n = floats::sample::enter(x)?;
    Ok(sides(heads, lines, Value { n }))
}
