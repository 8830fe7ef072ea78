// The changes of order, length and delay on a voice in lent memory: announced, instant and asked for.
ghost use Rattle.std.specs.Prelude.{◌≡◌};
ghost use Rattle.refusal.specs.Numbers.{code_of, beside};
ghost use Rattle.rule.specs.Calls.{announce as Announce, ask as Ask, instant as Instant};
ghost use Rattle.rule.specs.Calls.{commit as Commit, withdraw as Withdraw, count as Count};
ghost use Rattle.rule.specs.State.{back};
ghost use Rattle.line.specs.Ring.{ring};
ghost use Rattle.voice.specs.Struct.{tuning_of, voice_of};
ghost use Rattle.voice.specs.Valid.{Fit, Valid};
ghost use Rattle.voice.specs.Called.{Called, On};
ghost use Rattle.packed.specs.Words.{head_of};
ghost use Rattle.kept.specs.Lent.{answer_of};

use packed::{pack, unpack};
use refusal::Refusal;
use voice::Tuning;

// Announces a change, which takes effect after as many samples as the advance.
pub fn announce(head: &mut [u32; 27], to: Tuning) -> Result<(), Refusal>
    requires { Fit (head_of head.old) }
    ensures { Called (head_of head.old) (Announce (tuning_of to)) (answer_of (code_of result) head.new) }
{
    *head = pack(change::announce(unpack(head), to)?);
    Ok(())
}

// Changes at once, and returns how many samples of the line the eliminator was run over.
pub fn instant(head: &mut [u32; 27], line: &[i32; 2112], to: Tuning) -> Result<u32, Refusal>
    requires { Valid (head_of head.old) line.now }
    ensures on { On (head_of head.old) line.now (Instant (tuning_of to))
        (answer_of (code_of result) head.new) line.now }
    ensures count { beside result
        ≡ Count (voice_of (head_of head.old)) (back (ring (head_of head.old).at line.now)) (Instant (tuning_of to)) }
{
    let changed = change::instant(line, unpack(head), to)?;
    *head = pack(changed.head);
    Ok(changed.count)
}

// Asks for a change, which takes effect when it is committed.
pub fn ask(head: &mut [u32; 27], to: Tuning) -> Result<(), Refusal>
    requires { Fit (head_of head.old) }
    ensures { Called (head_of head.old) (Ask (tuning_of to)) (answer_of (code_of result) head.new) }
{
    *head = pack(change::ask(unpack(head), to)?);
    Ok(())
}

// Puts the change that was asked for in force, before the next sample.
pub fn commit(head: &mut [u32; 27]) -> Result<(), Refusal>
    requires { Fit (head_of head.old) }
    ensures { Called (head_of head.old) Commit (answer_of (code_of result) head.new) }
{
    *head = pack(change::asked::commit(unpack(head))?);
    Ok(())
}

// Drops the change that was asked for.
pub fn withdraw(head: &mut [u32; 27]) -> Result<(), Refusal>
    requires { Fit (head_of head.old) }
    ensures { Called (head_of head.old) Withdraw (answer_of (code_of result) head.new) }
{
    *head = pack(change::asked::withdraw(unpack(head))?);
    Ok(())
}
