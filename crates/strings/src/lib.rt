// Six strings in memory that a host keeps: a row of 27 words and a row of 2,112 samples for each. Each
// routine is one call on one string (document 02, L11): 24 where there is no such string, ahead of the
// call's own tests; else the call of crate kept on that row. In `changes`, the changes; in `stores`, the
// store and the load, of crate snapshot. Crate mix has the block of all six. Heads and lines are two arrays,
// and no array of voices: C lends them so.
#![tactic(auto)]

ghost use Rattle.refusal.specs.Numbers.{code_of};
ghost use Rattle.rule.specs.Calls.{loss as Loss, pluck as Plucking};
ghost use Rattle.instrument.specs.Strings.{on, opens, calls};
ghost use Rattle.open.specs.Opened.{opening_of};
ghost use Rattle.strings.specs.Rows.{Heads, Voices, RowOf, Called, Played, Resets};

use open::Opening;
use packed::pack;
use refusal::{Refusal, within};
use voice::Pluck;

pub mod changes;
pub mod stores;

// The row of a string: 24 where there is no such string.
fn row(string: u32) -> Result<usize, Refusal>
    ensures { RowOf string result }
{
    within(Refusal::NoString, string, 0, 5)?;
    Ok(string as usize)
}

// Opens a voice on a string: a refused opening leaves the refusal voice there.
pub fn open_string(
    heads: &mut [[u32; 27]; 6],
    lines: &mut [[i32; 2112]; 6],
    string: u32,
    opening: Opening,
) -> Result<(), Refusal>
    requires { Voices heads.old lines.old }
    ensures { Played heads.old lines.old (on string (opens (opening_of opening))) (code_of result) heads.new lines.new }
{
    let k = row(string)?;
    kept::open_voice(&mut heads[k], &mut lines[k], opening)
}

// Sets the loss of a string.
#[tactic(auto, using(crate::proofs::Rows::called_above, crate::proofs::Rows::called))]
pub fn set_loss(heads: &mut [[u32; 27]; 6], string: u32, g: u32) -> Result<(), Refusal>
    requires { Heads heads.old }
    ensures { Called heads.old string (calls (Loss g)) (code_of result) heads.new }
{
    kept::set_loss(&mut heads[row(string)?], g)
}

// Starts a pluck on a string in place of the rest of its old one.
#[tactic(auto, using(crate::proofs::Rows::called_above, crate::proofs::Rows::called))]
pub fn pluck(heads: &mut [[u32; 27]; 6], string: u32, pluck: Pluck) -> Result<(), Refusal>
    requires { Heads heads.old }
    ensures { Called heads.old string (calls (Plucking pluck.amplitude pluck.left pluck.noise)) (code_of result)
        heads.new }
{
    kept::pluck(&mut heads[row(string)?], pluck)
}

// Makes six strings of whatever the memory held, each of them Open's refusal voice.
pub fn reset(heads: &mut [[u32; 27]; 6], lines: &mut [[i32; 2112]; 6])
    ensures { Resets heads.new lines.new }
{
    let voice = open::refusal_voice();
    let head = pack(voice.head);
    let line = voice.line;
    *heads = [head; 6];
    *lines = [line; 6];
}
