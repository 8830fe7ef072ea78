// What writing turns down: by the first test that is not met.
// "Writing tests 17, 18, 10."
ghost use Rattle.std.specs.Prelude.{◌≡◌};
ghost use Rattle.refusal.specs.Numbers.{code_of};
ghost use Rattle.wav.specs.Written.{write_number};

use crate::limits::{rated, roomy};
use refusal::{Refusal, within};
use riff::sizes::file_size;

// The tests of writing.
pub fn writable(rate: u32, samples: &[i32], room: usize) -> Result<(), Refusal>
    ensures { code_of result ≡ write_number rate samples.now room }
{
    rated(rate)?;
    roomy(samples.len(), file_size(samples.len()), room)?;
    within(Refusal::Sample, samples::loudest(samples), 0, 8_388_607)
}
