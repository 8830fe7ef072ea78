// A junction in 16 words that a host lends: unpacked when a call begins, and packed when it ends.
// Every 16 words are some junction (specs/Words.antt); a signed number stands 2^31 higher in its word.
// Parts stand at places of these words, and what waits has a kind of 0 or 1: C lends the words as one array.
ghost use Rattle.std.specs.Prelude.{◌≡◌, ◌≤◌};
ghost use Rattle.tube.specs.Valid.{Tunes, Waits, Valid};
ghost use Rattle.signs.specs.Signs.{signed_of};
ghost use Rattle.tube.specs.Words.{filters_from, waiting_from, from_words, filters_of};

use crate::filters::{Filter, Filters, Pair};
use crate::{Junction, Move};
use integer::Value;
use signs::{of_word, to_word};

// The words of two filters: A1 and v1 over a, A1 and v1 over b.
#[derive(Clone, Copy, Default)]
struct Four {
    pub a1: u32,
    pub av: u32,
    pub b1: u32,
    pub bv: u32,
}

// The words of what waits: 0 for nothing, or 1 and a move.
#[derive(Clone, Copy, Default)]
struct Seven {
    pub kind: u32,
    pub d: u32,
    pub taken: u32,
    pub filters: Four,
}

fn filter(a: u32, v: u32) -> Filter
    ensures { result ≡ record { a1 = signed_of a; v1 = signed_of v } }
{
    Filter {
        a1: of_word(a).n,
        v1: of_word(v).n,
    }
}

fn filters(words: &[u32; 16], i: usize) -> Filters
    requires { i ≤ 12 }
    ensures { result ≡ filters_from words.now i }
{
    Filters {
        a: filter(words[i], words[i + 1]),
        b: filter(words[i + 2], words[i + 3]),
    }
}

fn waiting(kind: u32, d: u32, taken: u32, filters: Filters) -> Option<Move>
    ensures { result ≡ waiting_from kind d taken filters }
{
    if kind == 0 {
        return None;
    }
    Some(Move { d, taken, filters })
}

// The junction that the words are.
#[tactic(auto, unfolding(crate::specs::Words::from_words))]
pub fn unpack(words: &[u32; 16]) -> Junction
    ensures { result ≡ from_words words.now }
{
    Junction {
        r: of_word(words[0]),
        d: words[1],
        advance: words[2],
        filters: filters(words, 3),
        last: Pair {
            a: of_word(words[7]),
            b: of_word(words[8]),
        },
        waiting: waiting(words[9], words[10], words[11], filters(words, 12)),
    }
}

fn filter_words(d: u32, f: Filters) -> Four
    requires { Tunes d f }
    ensures { filters_of result ≡ f }
{
    Four {
        a1: to_word(Value { n: f.a.a1 }),
        av: to_word(Value { n: f.a.v1 }),
        b1: to_word(Value { n: f.b.a1 }),
        bv: to_word(Value { n: f.b.v1 }),
    }
}

fn waiting_words(advance: u32, w: Option<Move>) -> Seven
    requires { Waits advance w }
    ensures { waiting_from result.kind result.d result.taken (filters_of result.filters) ≡ w }
{
    match w {
        None => Seven::default(),
        Some(m) => Seven {
            kind: 1,
            d: m.d,
            taken: m.taken,
            filters: filter_words(m.d, m.filters),
        },
    }
}

// The words of a junction: 0 where nothing waits.
#[tactic(auto, unfolding(crate::specs::Words::from_words))]
pub fn pack(j: Junction) -> [u32; 16]
    requires { Valid j }
    ensures { from_words result ≡ j }
{
    let r = to_word(j.r);
    let f = filter_words(j.d, j.filters);
    let a = to_word(j.last.a);
    let b = to_word(j.last.b);
    let w = waiting_words(j.advance, j.waiting);
    let e = w.filters;
    [
        r, j.d, j.advance, f.a1, f.av, f.b1, f.bv, a, b, w.kind, w.d, w.taken, e.a1, e.av, e.b1,
        e.bv,
    ]
}
