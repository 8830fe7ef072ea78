// The words of the parts of a head that fits.
ghost use Rattle.std.specs.Prelude.{◌≡◌, get_or};
ghost use Rattle.voice.specs.Valid.{Tuned, Waiting-valid};
ghost use Rattle.packed.specs.Words.{filter_from, waiting_from};

use integer::Value;
use signs::to_word;
use voice::{Filter, Waiting};

// The nine words of a filter.
pub fn pack_filter(f: Filter) -> [u32; 9]
    requires { Tuned f }
    ensures { filter_from result 0 ≡ f }
{
    let t = f.tuning;
    let c = f.coefficients;
    let v = f.state;
    [
        t.order,
        t.length,
        t.delay,
        to_word(Value { n: c.a1 }),
        to_word(Value { n: c.a2 }),
        to_word(Value { n: c.a3 }),
        to_word(Value { n: v.v1 }),
        to_word(Value { n: v.v2 }),
        to_word(Value { n: v.v3 }),
    ]
}

// The eleven words of what waits: its kind, the eliminator, and how many samples that has taken.
pub fn pack_waiting(advance: u32, w: Waiting) -> [u32; 11]
    requires { Waiting-valid advance w }
    ensures { waiting_from (get_or result 0 0) (filter_from result 1) (get_or result 10 0) ≡ w }
{
    match w {
        Waiting::Idle => [0; 11],
        Waiting::Prepared(kind, e, taken) => {
            let f = pack_filter(e);
            [
                kind.number(),
                f[0],
                f[1],
                f[2],
                f[3],
                f[4],
                f[5],
                f[6],
                f[7],
                f[8],
                taken,
            ]
        }
    }
}
