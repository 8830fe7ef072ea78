// The next word of a text, and what it spells: a number, a sample or a byte.
ghost use Rattle.std.specs.Prelude.{◌≡◌, List, ℕ, Option, IfSome, MatchOption, true};
ghost use Rattle.text.specs.Numbers.{number_of, sample_of, byte_of};
ghost use Rattle.request.specs.Rest.{Rest, Split, Spelt, Misspelt, Ended};

use text::byte::read_byte;
use text::{read_number, read_sample};
use words::word;

// What a word can spell.
pub trait Spelled: Copy {
    ghost spells: { List ℕ → Option Self };

    fn read(word: &[u8]) -> Option<Self>
        ensures { result ≡ spells word.now };
}

impl Spelled for u32 {
    ghost spells = { number_of };

    fn read(word: &[u8]) -> Option<Self> {
        read_number(word)
    }
}

impl Spelled for i32 {
    ghost spells = { sample_of };

    fn read(word: &[u8]) -> Option<Self> {
        read_sample(word)
    }
}

impl Spelled for u8 {
    ghost spells = { byte_of };

    fn read(word: &[u8]) -> Option<Self> {
        read_byte(word)
    }
}

// The first word of a text, empty where there is none, and what follows it.
pub fn split_word<'a>(s: &'a [u8]) -> (&'a [u8], &'a [u8])
    ensures split { Split s.now result.0.now result.1.now }
    ensures rest { Rest s.now result.1.now }
{
    let w = word(s);
    (&s[w.start..w.end], &s[w.end..])
}

// What the first word spells, and what follows it.
pub fn next<'a, T: Spelled>(s: &'a [u8]) -> Option<(T, &'a [u8])>
    ensures spelt { MatchOption result (Misspelt T.spells s.now) (λ r. Spelt T.spells s.now r.0 r.1.now) }
    ensures rest { IfSome result (λ r. Rest s.now r.1.now) }
{
    let (word, rest) = split_word(s);
    Some((T::read(word)?, rest))
}

// No word is left.
pub fn ended(s: &[u8]) -> bool
    ensures { result ≡ true → Ended s.now }
{
    let (word, _) = split_word(s);
    word.is_empty()
}
