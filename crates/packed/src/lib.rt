// The head of a voice as 27 words that a host lends: read when a call begins, written when it ends.
// specs/Words.antt says which head the words are.
#![tactic(auto)]

ghost use Rattle.std.specs.Prelude.{◌≡◌};
ghost use Rattle.voice.specs.Valid.{Fit};
ghost use Rattle.packed.specs.Words.{head_of};

use crate::read::{filter_at, waiting_of};
use crate::write::{pack_filter, pack_waiting};
use signs::{of_word, to_word};
use voice::{Head, Pluck};

pub mod fits;
mod read;
mod write;

// The head that the words are.
#[tactic(auto, unfolding(crate::specs::Words::head_of))]
pub fn unpack(words: &[u32; 27]) -> Head
    ensures { result ≡ head_of words.now }
{
    Head {
        filter: filter_at(words, 0),
        loss: words[9],
        advance: words[10],
        last: of_word(words[11]),
        waiting: waiting_of(words[12], filter_at(words, 13), words[22]),
        pluck: Pluck {
            amplitude: words[23],
            left: words[24],
            noise: words[25],
        },
        at: words[26] as usize,
    }
}

// The words of a head, place by place: without a heap no arrays are joined.
#[tactic(auto, unfolding(crate::specs::Words::head_of))]
pub fn pack(h: Head) -> [u32; 27]
    requires { Fit h }
    ensures { head_of result ≡ h }
{
    let f = pack_filter(h.filter);
    let w = pack_waiting(h.advance, h.waiting);
    [
        f[0],
        f[1],
        f[2],
        f[3],
        f[4],
        f[5],
        f[6],
        f[7],
        f[8],
        h.loss,
        h.advance,
        to_word(h.last),
        w[0],
        w[1],
        w[2],
        w[3],
        w[4],
        w[5],
        w[6],
        w[7],
        w[8],
        w[9],
        w[10],
        h.pluck.amplitude,
        h.pluck.left,
        h.pluck.noise,
        h.at as u32,
    ]
}
