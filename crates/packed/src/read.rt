// The parts of a head, read from the words. Every word means something, so nothing is required of them.
ghost use Rattle.std.specs.Prelude.{◌≡◌, ◌≤◌};
ghost use Rattle.packed.specs.Words.{filter_from, waiting_from};

use allpass::State;
use signs::of_word;
use thiran::formula::Coefficients;
use voice::{Filter, Kind, Tuning, Waiting};

// The filter of nine words from i on, and not of a slice: the definition of a head has every word by its place.
pub fn filter_at(words: &[u32; 27], i: usize) -> Filter
    requires { i ≤ 18 }
    ensures { result ≡ filter_from words.now i }
{
    Filter {
        tuning: Tuning {
            order: words[i],
            length: words[i + 1],
            delay: words[i + 2],
        },
        coefficients: Coefficients {
            a1: of_word(words[i + 3]).n,
            a2: of_word(words[i + 4]).n,
            a3: of_word(words[i + 5]).n,
        },
        state: State {
            v1: of_word(words[i + 6]).n,
            v2: of_word(words[i + 7]).n,
            v3: of_word(words[i + 8]).n,
        },
    }
}

// What waits, by a kind's number. It is a word that C keeps, and no enum: every word means something.
pub fn waiting_of(kind: u32, e: Filter, taken: u32) -> Waiting
    ensures { result ≡ waiting_from kind e taken }
{
    match kind {
        0 => Waiting::Idle,
        1 => Waiting::Prepared(Kind::Announced, e, taken),
        _ => Waiting::Prepared(Kind::Asked, e, taken),
    }
}
