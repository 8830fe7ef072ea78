// One record of a score on a voice, but for its wait: what it sets, changes and plucks.
// A record is the nine numbers that reading it gives.
#![tactic(auto)]

ghost use Rattle.std.specs.Prelude.{◌≡◌, true, false, ◌↔◌, List, [], ◌∷◌, ℕ, ℤ};
ghost use Rattle.rule.specs.Calls.{announce as Announce};
ghost use Rattle.rule.specs.State.{State};
ghost use Rattle.voice.specs.Struct.{state_of};
ghost use Rattle.refusal.specs.Numbers.{code_of};
ghost use Rattle.voice.specs.Valid.{Fit, Valid};
ghost use Rattle.voice.specs.Called.{answered};
ghost use Rattle.record.specs.Record.{fields, record_number};
ghost use Rattle.follow.specs.Follow.{loss_calls, change_calls, change_to, pluck_calls, act_calls, Announces};
ghost use Rattle.follow.specs.Does.{Does};

use crate::changes::chosen;
use record::{
    AMPLITUDE, COUNT, HAS_AMPLITUDE, HAS_COUNT, HAS_DELAY, HAS_LENGTH, HAS_LOSS, INSTANT, LOSS,
    MAP, NUMBER, SEED, bit,
};
use refusal::Refusal;
use voice::{Head, Pluck};

pub mod changes;

// The samples of a pluck whose count is absent.
const PLUCK: u32 = 100;

// Sets G, where the record has one.
fn set_loss(head: Head, r: &[u32; 9]) -> Result<Head, Refusal>
    requires { Fit head }
    ensures { (l : List ℤ) → Valid head l
        → Does head l (loss_calls r.now (state_of head l)) (answered head result) l }
{
    if bit(r[MAP], HAS_LOSS) == 0 {
        return Ok(head);
    }
    open::calls::loss(head, r[LOSS])
}

// Changes L or d, where the record has one of them.
fn change(line: &[i32; 2112], head: Head, r: &[u32; 9]) -> Result<Head, Refusal>
    requires { Valid head line.now }
    ensures { Does head line.now
        (change_calls r.now (state_of head line.now)) (answered head result) line.now }
{
    let map = r[MAP];
    if bit(map, HAS_LENGTH) + bit(map, HAS_DELAY) == 0 {
        return Ok(head);
    }
    if bit(map, INSTANT) == 0 {
        return changes::announce(head, r);
    }
    changes::at_once(line, head, r)
}

// Plucks, where the record has an amplitude, for its count or 100 samples.
fn pluck(head: Head, r: &[u32; 9]) -> Result<Head, Refusal>
    requires { Fit head }
    ensures { (l : List ℤ) → Valid head l
        → Does head l (pluck_calls r.now (state_of head l)) (answered head result) l }
{
    let map = r[MAP];
    if bit(map, HAS_AMPLITUDE) == 0 {
        return Ok(head);
    }
    open::calls::pluck(
        head,
        Pluck {
            amplitude: r[AMPLITUDE],
            left: chosen(bit(map, HAS_COUNT), r[COUNT], PLUCK),
            noise: r[SEED],
        },
    )
}

// What reading a record was refused by: 14, 15.
pub fn unread(r: &[u32; 9]) -> Result<(), Refusal>
    ensures { (s : List ℕ) → r.now ≡ fields s → code_of result ≡ record_number s }
{
    // A number and not a Result: C lends the nine numbers that a record is read into.
    if r[NUMBER] == 0 {
        return Ok(());
    }
    if r[NUMBER] == Refusal::CutShort.number() {
        return Err(Refusal::CutShort);
    }
    Err(Refusal::BitMap)
}

// Whether a record sets anything.
pub fn sets(r: &[u32; 9]) -> bool
    ensures { (v : State) → (result ≡ false) ↔ (act_calls r.now v ≡ []) }
{
    let map = r[MAP];
    let change = bit(map, HAS_LENGTH) + bit(map, HAS_DELAY);
    let others = bit(map, HAS_LOSS) + bit(map, HAS_AMPLITUDE);
    change + others != 0
}

// Whether a record has an announced change, and nothing else beside its wait.
pub fn announces(r: &[u32; 9]) -> bool
    ensures variant { (result ≡ true) ↔ Announces r.now }
    ensures v_value { result ≡ true → (v : State)
        → act_calls r.now v ≡ Announce (change_to r.now v) ∷ [] }
{
    let map = r[MAP];
    let change = bit(map, HAS_LENGTH) + bit(map, HAS_DELAY);
    let beside = bit(map, HAS_LOSS) + bit(map, HAS_AMPLITUDE);
    if beside + bit(map, INSTANT) != 0 {
        return false;
    }
    change != 0
}

// The parts of a record, where it has them: G, then the change, then the pluck. Where one is refused, the head is as
// those before it left it.
fn parts(line: &[i32; 2112], head: &mut Head, r: &[u32; 9]) -> Result<(), Refusal>
    requires { Valid head.old line.now }
    ensures { Does head.old line.now (act_calls r.now (state_of head.old line.now))
        (record { refusal = code_of result; head = head.new }) line.now }
{
    *head = set_loss(*head, r)?;
    *head = change(line, *head, r)?;
    *head = pluck(*head, r)?;
    Ok(())
}

// What a record sets: its parts, or an instant change where it has no other.
pub fn act(line: &[i32; 2112], head: &mut Head, r: &[u32; 9]) -> Result<(), Refusal>
    requires { Valid head.old line.now }
    ensures { Does head.old line.now (act_calls r.now (state_of head.old line.now))
        (record { refusal = code_of result; head = head.new }) line.now }
{
    let map = r[MAP];
    if bit(map, HAS_LENGTH) + bit(map, HAS_DELAY) == 0 {
        return parts(line, head, r);
    }
    if bit(map, HAS_LOSS) + bit(map, HAS_AMPLITUDE) != 0 {
        return parts(line, head, r);
    }
    if bit(map, INSTANT) == 0 {
        return parts(line, head, r);
    }
    *head = changes::at_once(line, *head, r)?;
    Ok(())
}
