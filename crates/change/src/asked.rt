// What ends a change that was asked for: a commit puts it in force, a withdrawal drops it.
// To both an announced change counts as nothing asked.
ghost use Rattle.std.specs.Prelude.{◌≡◌, [], ◌∷◌};
ghost use Rattle.refusal.specs.Limits.{refusal as First};
ghost use Rattle.refusal.specs.Numbers.{code_of};
ghost use Rattle.rule.specs.Calls.{commit as Commit, withdraw as Withdraw};
ghost use Rattle.rule.specs.Tests.{asks, takings, asking, ready};
ghost use Rattle.voice.specs.Struct.{waiting_of};
ghost use Rattle.voice.specs.Valid.{Fit};
ghost use Rattle.voice.specs.Called.{Called, answered};
ghost use Rattle.change.specs.Committed.{committed_of, committing_of};

use refusal::{Refusal, within};
use voice::{Head, Kind, Waiting, with};

// How many changes that were asked for wait: none or one. An announced change is nothing asked.
fn asked(w: Waiting) -> u32
    ensures { result ≡ asks (waiting_of w) }
{
    match w {
        Waiting::Idle => 0,
        Waiting::Prepared(Kind::Announced, _, _) => 0,
        Waiting::Prepared(Kind::Asked, _, _) => 1,
    }
}

// How many samples the eliminator has taken, counted up to the advance.
fn taken(w: Waiting) -> u32
    ensures { result ≡ takings (waiting_of w) }
{
    match w {
        Waiting::Idle => 0,
        Waiting::Prepared(_, _, n) => n,
    }
}

// What a withdrawal is refused by, and a commit at first: 21.
fn unasked(w: Waiting) -> Result<(), Refusal>
    ensures { code_of result ≡ First (asking (waiting_of w) ∷ []) }
{
    within(Refusal::NothingAsked, asked(w), 1, 1)
}

// What a commit is refused by: 21, then 20.
fn early(w: Waiting, advance: u32) -> Result<(), Refusal>
    ensures { code_of result ≡ First (asking (waiting_of w) ∷ ready advance (waiting_of w) ∷ []) }
{
    unasked(w)?;
    let n = taken(w);
    within(Refusal::TooEarly, n, advance, n)
}

// What a commit is refused by: 21, then 20; one that is not leaves what `committed` returns.
pub fn uncommitted(head: Head) -> Result<(), Refusal>
    requires { Fit head }
    ensures { Called head Commit (committing_of head result) }
{
    early(head.waiting, head.advance)
}

// What waits is in force: the eliminator's tuning and state.
pub fn committed(head: Head) -> Head
    ensures { result ≡ committed_of head head.waiting }
{
    match head.waiting {
        Waiting::Idle => head,
        Waiting::Prepared(_, e, _) => with(head, e, Waiting::Idle),
    }
}

// Commits the change that was asked for: it is in force before the next sample.
pub fn commit(head: Head) -> Result<Head, Refusal>
    requires { Fit head }
    ensures { Called head Commit (answered head result) }
{
    uncommitted(head)?;
    Ok(committed(head))
}

// Withdraws the change that was asked for: nothing waits.
pub fn withdraw(head: Head) -> Result<Head, Refusal>
    requires { Fit head }
    ensures { Called head Withdraw (answered head result) }
{
    unasked(head.waiting)?;
    Ok(Head {
        waiting: Waiting::Idle,
        ..head
    })
}
