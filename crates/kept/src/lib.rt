// A voice in memory that a host keeps: 27 words, which crate packed reads and writes, and a line. Each
// routine is one call of document 01 or 02 on it; what it requires is the voice's invariant, which Open
// gives and each routine hands on. In `changes`, the changes; in `blocks`, the samples. The words and the line
// are two, and no struct: C lends them so.
#![tactic(auto)]

ghost use Rattle.refusal.specs.Numbers.{code_of};
ghost use Rattle.rule.specs.Calls.{loss as Loss, pluck as Plucking};
ghost use Rattle.voice.specs.Valid.{Fit};
ghost use Rattle.voice.specs.Called.{Called};
ghost use Rattle.open.specs.Opened.{opening_of, Opens};
ghost use Rattle.packed.specs.Words.{head_of};
ghost use Rattle.kept.specs.Lent.{answer_of, opened_of};

use open::Opening;
use packed::{pack, unpack};
use refusal::Refusal;
use voice::Pluck;

pub mod blocks;
pub mod changes;
pub mod checks;
pub mod waits;

// Opens a voice in the words and the line, whatever they held: a refused opening leaves the refusal voice.
pub fn open_voice(
    head: &mut [u32; 27],
    line: &mut [i32; 2112],
    opening: Opening,
) -> Result<(), Refusal>
    ensures { Opens (opening_of opening) (opened_of (code_of result) head.new line.new) }
{
    let opened = open::open(opening);
    let silence = opened.voice.line;
    *line = silence;
    *head = pack(opened.voice.head);
    opened.answer
}

// Sets the loss.
pub fn set_loss(head: &mut [u32; 27], g: u32) -> Result<(), Refusal>
    requires { Fit (head_of head.old) }
    ensures { Called (head_of head.old) (Loss g) (answer_of (code_of result) head.new) }
{
    *head = pack(open::calls::loss(unpack(head), g)?);
    Ok(())
}

// Starts a pluck in place of the rest of the old one.
pub fn pluck(head: &mut [u32; 27], pluck: Pluck) -> Result<(), Refusal>
    requires { Fit (head_of head.old) }
    ensures { Called (head_of head.old) (Plucking pluck.amplitude pluck.left pluck.noise)
        (answer_of (code_of result) head.new) }
{
    *head = pack(open::calls::pluck(unpack(head), pluck)?);
    Ok(())
}
