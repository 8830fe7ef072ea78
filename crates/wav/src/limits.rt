// The tests that writing and reading share: of the rate, and of the room.
// Each is that of its limit (specs/Written.antt).
ghost use Rattle.std.specs.Prelude.{◌≡◌, [], ◌∷◌};
ghost use Rattle.refusal.specs.Limits.{refusal as First};
ghost use Rattle.refusal.specs.Numbers.{code_of};
ghost use Rattle.wav.specs.Written.{rated, roomy};

use refusal::{Refusal, within};

// The rate of a recording is within its limits.
pub fn rated(rate: u32) -> Result<(), Refusal>
    ensures { code_of result ≡ First (rated rate ∷ []) }
{
    within(Refusal::RecordingRate, rate, 8_000, 192_000)
}

// There are not too many samples, and as many places as are needed.
pub fn roomy(count: usize, needed: usize, room: usize) -> Result<(), Refusal>
    ensures { code_of result ≡ First (roomy count needed room ∷ []) }
{
    if count > 1_000_000 || needed > room {
        return Err(Refusal::Room);
    }
    Ok(())
}
