// The floats of hosts (document 02, L13): samples, delays and losses as f32. Each step of a conversion is
// exact: outward by a power of two, inward by an f64 and whole numbers. No half is added in f32: that would
// round up a number that stands just below it.
#![tactic(auto)]

pub mod delay;
pub mod frame;
pub mod loss;
pub mod rounding;
pub mod sample;
