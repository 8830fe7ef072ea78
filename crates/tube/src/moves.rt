// A move to another delay.
ghost use Rattle.std.specs.Prelude.{◌≡◌, IfOk};
ghost use Rattle.junction.specs.Calls.{answer, move as Announce};
ghost use Rattle.tube.specs.Struct.{junction_of, moved};
ghost use Rattle.tube.specs.Valid.{Valid};

use crate::filters::at_rest;
use crate::{Junction, Move, settle};
use refusal::{Refusal, within};

// Announces a new d: two eliminators start at rest. With an advance of 0 it is in force at once.
pub fn start_move(j: Junction, d: u32) -> Result<Junction, Refusal>
    requires { Valid j }
    ensures { (moved j result ≡ answer (junction_of j) (Announce d)) × IfOk result (λ k. Valid k) }
{
    within(Refusal::Delay, d, 2_049, 6_143)?;
    if j.waiting.is_some() {
        return Err(Refusal::ChangeWaits);
    }
    let w = Move {
        d,
        taken: 0,
        filters: at_rest(d),
    };
    Ok(settle(j, Some(w)))
}
