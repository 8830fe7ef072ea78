// A loss as f32. Contracts cite specs/Loss.antt.
ghost use Rattle.std.specs.Prelude.{◌≡◌, ◌*◌, ◌≤◌, T, pos};
ghost use Rattle.floats.specs.Worth.{finite, size, unit, above};
ghost use Rattle.floats.specs.Loss.{gain as Gain, loss as LossOf, loss_of};

use crate::rounding::{finite, nearest_half, scale};
use refusal::{MOST_LOSS, Refusal};

// G, in units of 1/65,536, of a loss from 0 to 1.
fn gain(x: f32) -> u32
    requires { T (finite x) × (above x ≡ pos (size x)) × (size x ≤ 1 * unit x) }
    ensures { result ≡ Gain x }
{
    let t = nearest_half(scale(x, 131072.0));
    (t.n as u32).min(MOST_LOSS)
}

// The nearest whole number of 1/65,536, a half upward, at most 65,535.
pub fn enter(x: f32) -> Result<u32, Refusal>
    ensures { loss_of result ≡ LossOf x }
{
    finite(Refusal::NotFinite, x)?;
    if x < 0.0 || 1.0 < x {
        return Err(Refusal::FloatRange);
    }
    Ok(gain(x))
}
