// A tube junction: opened, moved to another delay, and run a sample at a time (document 02, L12).
// A junction goes by value; specs/Struct.antt says which junction of crate `junction` it is.
#![tactic(auto)]

ghost use Rattle.std.specs.Prelude.{◌≡◌};
ghost use Rattle.junction.specs.Junction.{settle as Settle};
ghost use Rattle.tube.specs.Struct.{waiting_of, junction_of};
ghost use Rattle.tube.specs.Valid.{Counts, Valid};

pub mod filters;
pub mod memory;
pub mod moves;
pub mod open;
pub mod sample;
mod scatter;

use filters::{Filters, Pair};
use integer::Value;

// A move that waits: its d, how many inputs its eliminators have taken, and the eliminators.
#[derive(Clone, Copy)]
pub struct Move {
    pub d: u32,
    pub taken: u32,
    pub filters: Filters,
}

// last is the sample before, from each side.
#[derive(Clone, Copy)]
pub struct Junction {
    pub r: Value,
    pub d: u32,
    pub advance: u32,
    pub filters: Filters,
    pub last: Pair,
    pub waiting: Option<Move>,
}

// j with the filters of a move in force once they have taken as many inputs as the advance; else the move waits.
pub fn settle(j: Junction, w: Option<Move>) -> Junction
    requires { Valid j × Counts j.advance w }
    ensures { (junction_of result ≡ Settle (junction_of j) (waiting_of w)) × Valid result }
{
    match w {
        None => j,
        Some(m) if m.taken == j.advance => Junction {
            d: m.d,
            filters: m.filters,
            waiting: None,
            ..j
        },
        Some(_) => Junction { waiting: w, ..j },
    }
}
