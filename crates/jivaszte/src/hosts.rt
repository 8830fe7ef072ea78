// Floats for hosts (document 02, L13): the split of a delay, and events and frames on the six strings of an
// instrument, in rows of 27 words and of 2,112 samples. What a call on strings requires is their invariant.
ghost use Rattle.std.specs.Prelude.{◌≡◌};
ghost use Rattle.floats.specs.Delay.{split};
ghost use Rattle.strings.specs.Rows.{Heads, Voices};
ghost use Rattle.events.specs.declared.Event.TheVariants.{Delay, Loss};
ghost use Rattle.events.specs.Events.{Handled};
ghost use Rattle.frames.specs.Frames.{Framed};

use events::Event;
use floats::frame::Frame;
use pitch::Parts;
use refusal::code;

// L and d of a delay in samples.
pub fn jivaszte_split(order: u32, samples: f32, span: &mut u32, delay: &mut u32) -> u32
    ensures { record { refusal = result; length = span.new; delay = delay.new }
        ≡ split order samples }
{
    let answer = floats::delay::split(order, samples);
    let p = answer.unwrap_or(Parts {
        length: 0,
        delay: 0,
    });
    *span = p.length;
    *delay = p.delay;
    code(answer)
}

// A host's delay: an announced change on a string, its order kept.
pub fn jivaszte_strings_event_delay(heads: &mut [[u32; 27]; 6], string: u32, samples: f32) -> u32
    requires { Heads heads.old }
    ensures { Handled heads.old string (Delay samples) result heads.new }
{
    code(events::handle(heads, string, Event::Delay(samples)))
}

// A host's loss on a string.
pub fn jivaszte_strings_event_loss(heads: &mut [[u32; 27]; 6], string: u32, loss: f32) -> u32
    requires { Heads heads.old }
    ensures { Handled heads.old string (Loss loss) result heads.new }
{
    code(events::handle(heads, string, Event::Loss(loss)))
}

// One sample for all six strings, and one frame.
pub fn jivaszte_strings_frame(
    heads: &mut [[u32; 27]; 6],
    lines: &mut [[i32; 2112]; 6],
    sample: f32,
    number: &mut u32,
) -> Frame
    requires { Voices heads.old lines.old }
    ensures { Framed heads.old lines.old sample number.new result
        heads.new lines.new }
{
    let answer = frames::frame(heads, lines, sample);
    *number = code(answer);
    answer.unwrap_or(Frame {
        left: 0.0,
        right: 0.0,
    })
}
