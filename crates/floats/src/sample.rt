// Samples as f32, outward and inward. Contracts cite specs/Sample.antt.
ghost use Rattle.std.specs.Prelude.{◌≡◌, ◌≤◌, unsigned_abs};
ghost use Rattle.integer.specs.Rounding.{M};
ghost use Rattle.floats.specs.Sample.{leaves, enters, sample_of};

use crate::rounding::{finite, nearest_half, scale};
use refusal::Refusal;

// n / 2^23, exactly.
pub fn leave(n: i32) -> f32
    requires { unsigned_abs n ≤ M }
    ensures { result ≡ leaves n }
{
    (n as f32) * 0.00000011920928955078125
}

// The nearest whole number of 1/2^23, a half upward, clipped.
pub fn enter(x: f32) -> Result<i64, Refusal>
    ensures { sample_of result ≡ enters x }
{
    finite(Refusal::NotFinite, x)?;
    if x < -1.0 || 1.0 < x {
        return Err(Refusal::FloatRange);
    }
    Ok(integer::clip(nearest_half(scale(x, 16777216.0))).n)
}
