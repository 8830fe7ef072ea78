// A loop that is called with a number for its order is compiled for that order: for the filter's, for that of a change
// that waits, 0 where nothing does, and for whether the buffer is what comes in. A loop that asked was slower.
ghost use Rattle.std.specs.Prelude.{◌≡◌, ◌+◌, ◌-◌, ◌%◌, ◌≤◌, length};
ghost use Rattle.integer.specs.Rounding.{M};
ghost use Rattle.samples.specs.Samples.{loudest};
ghost use Rattle.line.specs.Ring.{Apart};
ghost use Rattle.voice.specs.declared.Waiting.TheVariants.{Idle};
ghost use Rattle.voice.specs.Valid.{Tuned, Valid};
ghost use Rattle.loops.specs.Carried.{after_of, Leads};
ghost use Rattle.loops.specs.Fed.{fed_of};
ghost use Rattle.loops.specs.Rendered.{Went};

use crate::Led;
use crate::run::run;
use voice::{Filter, Head};

// Renders samples of the buffer while nothing waits, by the loop of the filter's order.
pub fn by_order(line: &mut [i32; 2112], fed: bool, h: Head, from: usize, buffer: &mut [i32]) -> Led
    requires valid { Valid h line.old × (loudest (fed_of fed 0 buffer.old) ≤ M) }
    requires waiting_value { (h.waiting ≡ Idle) × (h.pluck.left ≡ 0) }
    requires from_value { (from ≡ (h.at + 2112 - h.filter.tuning.length) % 2112)
        × Apart h.at h.filter.tuning.length (length buffer.old) }
    ensures { Went fed buffer.old h line.old buffer.new (after_of h result)
        line.new result.ran.done }
{
    match (h.filter.tuning.order, fed) {
        (1, true) => run(line, 1, 0, true, h, h.filter, from, from, buffer),
        (1, false) => run(line, 1, 0, false, h, h.filter, from, from, buffer),
        (2, true) => run(line, 2, 0, true, h, h.filter, from, from, buffer),
        (2, false) => run(line, 2, 0, false, h, h.filter, from, from, buffer),
        (_, true) => run(line, 3, 0, true, h, h.filter, from, from, buffer),
        (_, false) => run(line, 3, 0, false, h, h.filter, from, from, buffer),
    }
}

// Renders samples of the buffer while a change waits, by the loop of both orders, that of the filter and that of the
// change.
pub fn by_orders(
    line: &mut [i32; 2112],
    fed: bool,
    h: Head,
    e: Filter,
    from: usize,
    far: usize,
    buffer: &mut [i32],
) -> Led
    requires valid { Valid h line.old × (loudest (fed_of fed 0 buffer.old) ≤ M) }
    requires left_value { (h.pluck.left ≡ 0) × Tuned e
        × Leads h.waiting e.tuning.order e (length buffer.old) h.advance }
    requires from_value { (from ≡ (h.at + 2112 - h.filter.tuning.length) % 2112)
        × (far ≡ (h.at + 2112 - e.tuning.length) % 2112)
        × Apart h.at h.filter.tuning.length (length buffer.old)
        × Apart h.at e.tuning.length (length buffer.old) }
    ensures { Went fed buffer.old h line.old buffer.new (after_of h result)
        line.new result.ran.done }
{
    match (h.filter.tuning.order, e.tuning.order, fed) {
        (1, 1, true) => run(line, 1, 1, true, h, e, from, far, buffer),
        (1, 1, false) => run(line, 1, 1, false, h, e, from, far, buffer),
        (1, 2, true) => run(line, 1, 2, true, h, e, from, far, buffer),
        (1, 2, false) => run(line, 1, 2, false, h, e, from, far, buffer),
        (1, _, true) => run(line, 1, 3, true, h, e, from, far, buffer),
        (1, _, false) => run(line, 1, 3, false, h, e, from, far, buffer),
        (2, 1, true) => run(line, 2, 1, true, h, e, from, far, buffer),
        (2, 1, false) => run(line, 2, 1, false, h, e, from, far, buffer),
        (2, 2, true) => run(line, 2, 2, true, h, e, from, far, buffer),
        (2, 2, false) => run(line, 2, 2, false, h, e, from, far, buffer),
        (2, _, true) => run(line, 2, 3, true, h, e, from, far, buffer),
        (2, _, false) => run(line, 2, 3, false, h, e, from, far, buffer),
        (_, 1, true) => run(line, 3, 1, true, h, e, from, far, buffer),
        (_, 1, false) => run(line, 3, 1, false, h, e, from, far, buffer),
        (_, 2, true) => run(line, 3, 2, true, h, e, from, far, buffer),
        (_, 2, false) => run(line, 3, 2, false, h, e, from, far, buffer),
        (_, _, true) => run(line, 3, 3, true, h, e, from, far, buffer),
        (_, _, false) => run(line, 3, 3, false, h, e, from, far, buffer),
    }
}
