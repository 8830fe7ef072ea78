// The calls that set a number: loss and pluck.
// Neither reads or writes the line.
ghost use Rattle.rule.specs.Calls.{loss as Loss, pluck as Plucking};
ghost use Rattle.voice.specs.Valid.{Fit};
ghost use Rattle.voice.specs.Called.{Called, answered};

use refusal::{LONGEST_PLUCK, LOUDEST_PLUCK, MOST_LOSS, Refusal, within};
use voice::{Head, Pluck};

// Sets the loss.
pub fn loss(head: Head, g: u32) -> Result<Head, Refusal>
    requires { Fit head }
    ensures { Called head (Loss g) (answered head result) }
{
    within(Refusal::Loss, g, 0, MOST_LOSS)?;
    Ok(Head { loss: g, ..head })
}

// Starts a pluck in place of the rest of the old one.
pub fn pluck(head: Head, pluck: Pluck) -> Result<Head, Refusal>
    requires { Fit head }
    ensures { Called head (Plucking pluck.amplitude pluck.left pluck.noise) (answered head result) }
{
    within(Refusal::Amplitude, pluck.amplitude, 0, LOUDEST_PLUCK)?;
    within(Refusal::Count, pluck.left, 1, LONGEST_PLUCK)?;
    Ok(Head { pluck, ..head })
}
