// The change of a record, announced or at once: an absent L or d is the one in force, and the order is kept.
// A field that may be absent is read here.
ghost use Rattle.std.specs.Prelude.{◌≡◌, cond, List, eqb, ℤ};
ghost use Rattle.rule.specs.Calls.{announce as Announce, instant as Instant};
ghost use Rattle.rule.specs.State.{State};
ghost use Rattle.voice.specs.Struct.{tuning_of, state_of};
ghost use Rattle.voice.specs.Valid.{Fit, Valid};
ghost use Rattle.voice.specs.Called.{On, answered};
ghost use Rattle.voice.specs.declared.Kind.TheVariants.{Announced};
ghost use Rattle.change.specs.Started.{started_of};
ghost use Rattle.follow.specs.Follow.{change_to};

use record::{DELAY, HAS_DELAY, HAS_LENGTH, LENGTH, MAP, bit};
use refusal::Refusal;
use voice::{Filter, Head, Tuning};

// A field where its bit stands, else the number in its place.
pub fn chosen(bit: u32, field: u32, other: u32) -> u32
    ensures { result ≡ cond (eqb bit 0) other field }
{
    if bit == 0 { other } else { field }
}

// The tuning that a record changes to, from the one in force.
fn target(now: Tuning, r: &[u32; 9]) -> Tuning
    ensures { (v : State) → v.voice.tuning ≡ tuning_of now → tuning_of result ≡ change_to r.now v }
{
    let map = r[MAP];
    Tuning {
        order: now.order,
        length: chosen(bit(map, HAS_LENGTH), r[LENGTH], now.length),
        delay: chosen(bit(map, HAS_DELAY), r[DELAY], now.delay),
    }
}

// What the change starts with where it is announced.
pub fn started(head: Head, r: &[u32; 9]) -> Result<Filter, Refusal>
    requires { Fit head }
    ensures { (l : List ℤ) → Valid head l
        → On head l (Announce (change_to r.now (state_of head l))) (started_of head Announced result) l }
{
    change::ready(head, target(head.filter.tuning, r))
}

// Announces the change, beside other parts of a record. (If this called `started`, that would not be compiled into the
// loop of a score any more.)
pub fn announce(head: Head, r: &[u32; 9]) -> Result<Head, Refusal>
    requires { Fit head }
    ensures { (l : List ℤ) → Valid head l
        → On head l (Announce (change_to r.now (state_of head l))) (answered head result) l }
{
    change::announce(head, target(head.filter.tuning, r))
}

// Makes the change at once.
pub fn at_once(line: &[i32; 2112], head: Head, r: &[u32; 9]) -> Result<Head, Refusal>
    requires { Valid head line.now }
    ensures { On head line.now
        (Instant (change_to r.now (state_of head line.now))) (answered head result) line.now }
{
    let c = change::instant(line, head, target(head.filter.tuning, r))?;
    Ok(c.head)
}
