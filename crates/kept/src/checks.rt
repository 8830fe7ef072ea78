// The voice's invariant, tested for memory that came from elsewhere: 2,112 samples take as long as a block
// of 64, so that no call tests it by itself.
ghost use Rattle.std.specs.Prelude.{◌≡◌, true, ◌↔◌};
ghost use Rattle.voice.specs.Valid.{Valid};
ghost use Rattle.packed.specs.Words.{head_of};

use packed::fits::fits;
use samples::all_samples;

// The words and the line are a voice.
pub fn check(head: &[u32; 27], line: &[i32; 2112]) -> bool
    ensures { (result ≡ true) ↔ Valid (head_of head.now) line.now }
{
    fits(head) && all_samples(line)
}
