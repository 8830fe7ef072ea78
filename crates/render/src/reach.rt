// How many samples of a buffer a loop can render.
// A loop goes to the ring's end at most, and no further than what waits and what sounds let it.
ghost use Rattle.std.specs.Prelude.{◌≡◌, ◌≤◌, ◌<◌};
ghost use Rattle.line.specs.Ring.{Apart};
ghost use Rattle.rule.specs.Voice.{announced};
ghost use Rattle.voice.specs.declared.Waiting.TheVariants.{Idle};
ghost use Rattle.voice.specs.Struct.{kind_of};
ghost use Rattle.voice.specs.Valid.{Fit};

use voice::{Head, Kind, Waiting};

// How many of n samples a change of this kind waits for, if an announced one waits for so many more.
pub fn reach(kind: Kind, n: usize, left: usize) -> usize
    ensures { (result ≤ n) × (kind_of kind ≡ announced → result ≤ left) }
{
    match kind {
        Kind::Announced => n.min(left),
        Kind::Asked => n,
    }
}

// The samples that the loop of a pluck, which clips, renders at once where none sounds and one is to be clipped.
const CLIPPED: u32 = 64;

// What is left of a pluck, or so many samples where none sounds.
fn few(left: u32) -> u32
    ensures { 0 < result }
{
    if left == 0 { CLIPPED } else { left }
}

// How many of n samples the loop of a pluck is to render: what is left of a pluck, or a few; none where a change
// waits.
pub fn sung(h: Head, n: usize) -> usize
    requires { Fit h }
    ensures { (result ≤ n) × Apart h.at h.filter.tuning.length result × (0 < result → h.waiting ≡ Idle) }
{
    match h.waiting {
        Waiting::Idle => {
            let m = line::room(h.at, h.filter.tuning.length as usize, n);
            m.min(few(h.pluck.left) as usize)
        }
        Waiting::Prepared(_, _, _) => 0,
    }
}
