// Lines with two of a kind: two samples, or two lists of bytes with the word `/` between them.
ghost use Rattle.std.specs.Prelude.{◌≡◌, ◌∷◌, ◌++◌, IfSome};

use crate::next::{ended, next};
use words::word;

// Reads a text as two samples.
pub fn two_samples(s: &[u8]) -> Option<(i32, i32)> {
    let (first, rest) = next(s)?;
    let (second, rest) = next(rest)?;
    if ended(rest) {
        Some((first, second))
    } else {
        None
    }
}

// What stands before the word `/` and what stands after it.
pub fn two_lists<'a>(s: &'a [u8]) -> Option<(&'a [u8], &'a [u8])>
    ensures { IfSome result (λ r. s.now ≡ r.0.now ++ 47 ∷ r.1.now) }
{
    // By places and not by what is left: the text is cut at a place.
    let mut at = 0;
    while at < s.len() {
        let w = word(&s[at..]);
        let (start, end) = (at + w.start, at + w.end);
        if &s[start..end] == b"/".as_slice() {
            return Some((&s[..start], &s[end..]));
        }
        if w.end == 0 {
            return None;
        }
        at = end;
    }
    None
}
