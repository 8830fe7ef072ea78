// The noise of a pluck, sample by sample.
// Contracts cite specs/Sample.antt.
ghost use Rattle.std.specs.Prelude.{◌≡◌, ◌≤◌, ◌^◌, pos, nat_abs, ◌*ℤ◌};
ghost use Rattle.voice.specs.Valid.{Plucked};
ghost use Rattle.step.specs.Sample.{PluckSounds};

use integer::Value;
use noise::{Drawn, draw};
use voice::Pluck;

#[derive(Clone, Copy)]
pub struct Sounded {
    pub noise: Value,
    pub rest: Pluck,
}

// amplitude × draw.
fn scaled(amplitude: u32, d: Drawn) -> Value
    requires { (amplitude ≤ 255) × (nat_abs d.value ≤ 32768) }
    ensures { (result.n ≡ pos amplitude *ℤ d.value) × (nat_abs result.n ≤ 2 ^ 23) }
{
    Value {
        n: (amplitude as i64) * (d.value as i64),
    }
}

// The noise sample of a pluck, 0 where none is sounding, and what is left of the pluck.
pub fn sound(p: Pluck) -> Sounded
    requires { Plucked p }
    ensures { PluckSounds p result }
{
    if p.left == 0 {
        return Sounded {
            noise: Value { n: 0 },
            rest: p,
        };
    }
    let d = draw(p.noise);
    let noise = scaled(p.amplitude, d);
    if p.left == 1 {
        return Sounded {
            noise,
            rest: Pluck {
                amplitude: 0,
                left: 0,
                noise: 0,
            },
        };
    }
    Sounded {
        noise,
        rest: Pluck {
            left: p.left - 1,
            noise: d.state,
            ..p
        },
    }
}
