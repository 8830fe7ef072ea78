// The changes of order, length and delay on one of six strings: announced, instant and asked for.
ghost use Rattle.std.specs.Prelude.{◌≡◌};
ghost use Rattle.refusal.specs.Numbers.{code_of, beside};
ghost use Rattle.rule.specs.Calls.{announce as Announce, ask as Ask, instant as Instant};
ghost use Rattle.rule.specs.Calls.{commit as Commit, withdraw as Withdraw};
ghost use Rattle.voice.specs.Struct.{tuning_of};
ghost use Rattle.instrument.specs.Strings.{on, calls, counted};
ghost use Rattle.strings.specs.Rows.{strings_of, Heads, Voices, Called, Played};

use crate::row;
use refusal::Refusal;
use voice::Tuning;

// Announces a change, which takes effect after as many samples as the string's advance.
#[tactic(auto, using(crate::proofs::Rows::called_above, crate::proofs::Rows::called))]
pub fn announce(heads: &mut [[u32; 27]; 6], string: u32, to: Tuning) -> Result<(), Refusal>
    requires { Heads heads.old }
    ensures { Called heads.old string (calls (Announce (tuning_of to))) (code_of result) heads.new }
{
    kept::changes::announce(&mut heads[row(string)?], to)
}

// Changes at once, and returns how many samples of the line the eliminator was run over.
pub fn instant(
    heads: &mut [[u32; 27]; 6],
    lines: &[[i32; 2112]; 6],
    string: u32,
    to: Tuning,
) -> Result<u32, Refusal>
    requires { Voices heads.old lines.now }
    ensures played { Played heads.old lines.now (on string (calls (Instant (tuning_of to)))) (code_of result)
        heads.new lines.now }
    ensures count { beside result
        ≡ counted (strings_of heads.old lines.now) string (calls (Instant (tuning_of to))) }
{
    let k = row(string)?;
    kept::changes::instant(&mut heads[k], &lines[k], to)
}

// Asks for a change, which takes effect when it is committed.
#[tactic(auto, using(crate::proofs::Rows::called_above, crate::proofs::Rows::called))]
pub fn ask(heads: &mut [[u32; 27]; 6], string: u32, to: Tuning) -> Result<(), Refusal>
    requires { Heads heads.old }
    ensures { Called heads.old string (calls (Ask (tuning_of to))) (code_of result) heads.new }
{
    kept::changes::ask(&mut heads[row(string)?], to)
}

// Puts the change that was asked for in force, before the next sample.
#[tactic(auto, using(crate::proofs::Rows::called_above, crate::proofs::Rows::called))]
pub fn commit(heads: &mut [[u32; 27]; 6], string: u32) -> Result<(), Refusal>
    requires { Heads heads.old }
    ensures { Called heads.old string (calls Commit) (code_of result) heads.new }
{
    kept::changes::commit(&mut heads[row(string)?])
}

// Drops the change that was asked for.
#[tactic(auto, using(crate::proofs::Rows::called_above, crate::proofs::Rows::called))]
pub fn withdraw(heads: &mut [[u32; 27]; 6], string: u32) -> Result<(), Refusal>
    requires { Heads heads.old }
    ensures { Called heads.old string (calls Withdraw) (code_of result) heads.new }
{
    kept::changes::withdraw(&mut heads[row(string)?])
}
