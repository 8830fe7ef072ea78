// A delay in samples as f32, and the length and the delay of a voice that it is split into. Contracts cite
// specs/Delay.antt.
ghost use Rattle.std.specs.Prelude.{◌≡◌, ◌*◌, ◌≤◌, T, pos};
ghost use Rattle.floats.specs.Worth.{finite, size, unit, above};
ghost use Rattle.pitch.specs.Pitch.{pitch_of};
ghost use Rattle.floats.specs.Delay.{period as Period, split as Split};

use crate::rounding::{finite, nearest_half, scale};
use pitch::Parts;
use refusal::{ORDERS, Refusal, within};

// T, in units of 1/4,096, of a delay from 0 to 4,095 samples.
fn period(x: f32) -> u32
    requires { T (finite x) × (above x ≡ pos (size x)) × (size x ≤ 4095 * unit x) }
    ensures { pos result ≡ Period x }
{
    let t = nearest_half(scale(x, 8192.0));
    t.n as u32
}

// The length and the delay of a voice of an order. Past 4,095 samples no length is long enough: such a delay
// is refused before it is scaled.
pub fn split(order: u32, x: f32) -> Result<Parts, Refusal>
    ensures { pitch_of result ≡ Split order x }
{
    within(Refusal::Order, order, 1, ORDERS)?;
    finite(Refusal::NotFinite, x)?;
    if x < 0.0 || 4095.0 < x {
        return Err(Refusal::NoteLength);
    }
    pitch::split(order, period(x))
}
