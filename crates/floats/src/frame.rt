// A frame: the samples of the two sides as f32, returned by value.
ghost use Rattle.std.specs.Prelude.{◌≡◌, ◌≤◌, unsigned_abs};
ghost use Rattle.integer.specs.Rounding.{M};
ghost use Rattle.floats.specs.Sample.{leaves};

use crate::sample::leave;

#[repr(C)]
#[derive(Clone, Copy)]
pub struct Frame {
    pub left: f32,
    pub right: f32,
}

// The frame of two samples.
pub fn frame_of(left: i32, right: i32) -> Frame
    requires { (unsigned_abs left ≤ M) × (unsigned_abs right ≤ M) }
    ensures { result ≡ record { left = leaves left; right = leaves right } }
{
    Frame {
        left: leave(left),
        right: leave(right),
    }
}
