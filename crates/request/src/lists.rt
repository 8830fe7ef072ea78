// Lists of words: numbers, samples and bytes, read into lent arrays.
ghost use Rattle.std.specs.Prelude.{◌≡◌, ◌≤◌, IfSome, length, replicate};
ghost use Rattle.request.specs.Rest.{Rest, Spells};

use crate::kinds::Kind;
use crate::next::{Spelled, ended, next, split_word};
use crate::pairs::{two_lists, two_samples};

// Reads as many numbers as there are places for, and returns what follows them.
pub fn numbers<'a>(s: &'a [u8], into: &mut [u32]) -> Option<&'a [u8]>
    ensures { IfSome result (λ rest. Rest s.now rest.now) }
{
    let mut rest = s;
    for n in into {
        let (number, after) = next(rest)?;
        *n = number;
        rest = after;
    }
    Some(rest)
}

// Reads a text as a list of samples or bytes.
pub fn read_list<'a, T: Spelled>(s: &[u8], into: &'a mut [T]) -> Option<&'a [T]>
    ensures most { IfSome result (λ items. length items.now ≤ length into.old) }
    ensures spelt { IfSome result (λ items. Spells T.spells s.now items.now) }
{
    let mut rest = s;
    for (count, place) in into.iter_mut().enumerate() {
        let (word, after) = split_word(rest);
        if word.is_empty() {
            return Some(&into[..count]);
        }
        *place = T::read(word)?;
        rest = after;
    }
    if ended(rest) { Some(into) } else { None }
}

// Room for the bytes of a line, which take three places of the text each.
pub fn bytes_room() -> [u8; 349526]
    ensures { result ≡ replicate 349526 0 }
{
    [0; 349526]
}

// A text is a list of samples or bytes, at most so many. It takes no room for them: each line with a list is read by
// this first, and room for its bytes, filled with zeros, took longer than the rest of a short line.
fn spells<T: Spelled>(s: &[u8], most: usize) -> bool {
    let mut rest = s;
    for _ in 0..most {
        let (word, after) = split_word(rest);
        if word.is_empty() {
            return true;
        }
        if T::read(word).is_none() {
            return false;
        }
        rest = after;
    }
    ended(rest)
}

// A text is a list of samples.
fn sampled(s: &[u8]) -> bool {
    spells::<i32>(s, 4_096)
}

// A text is a list of bytes.
pub fn byted(s: &[u8]) -> bool {
    spells::<u8>(s, 349_526)
}

// What follows the numbers is what the kind has there.
pub fn listed(kind: Kind, s: &[u8]) -> bool {
    match kind {
        Kind::Block | Kind::Mix | Kind::WavWrite => sampled(s),
        Kind::Record | Kind::Run | Kind::WavRead | Kind::Gather | Kind::Load | Kind::Panel => {
            byted(s)
        }
        Kind::Tube => two_samples(s).is_some(),
        Kind::Merge => match two_lists(s) {
            Some((first, second)) => byted(first) && byted(second),
            None => false,
        },
        _ => ended(s),
    }
}
