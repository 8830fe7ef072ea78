// How long a change still waits.
ghost use Rattle.std.specs.Prelude.{◌≡◌};
ghost use Rattle.voice.specs.Struct.{waiting_of, voice_of};
ghost use Rattle.voice.specs.Valid.{Waiting-valid, Fit};
ghost use Rattle.packed.specs.Words.{head_of};
ghost use Rattle.kept.specs.Awaited.{left as Left, awaited};

use packed::unpack;
use voice::Waiting;

// How many samples the eliminator still takes up to the advance.
fn left(advance: u32, w: Waiting) -> u32
    requires { Waiting-valid advance w }
    ensures { result ≡ Left advance (waiting_of w) }
{
    match w {
        Waiting::Idle => 0,
        Waiting::Prepared(_, _, n) => advance - n,
    }
}

// How many samples an announced change still takes, or an asked one until its commit is accepted; 0 where
// nothing waits.
pub fn waits(head: &[u32; 27]) -> u32
    requires { Fit (head_of head.now) }
    ensures { result ≡ awaited (voice_of (head_of head.now)) }
{
    let h = unpack(head);
    left(h.advance, h.waiting)
}
