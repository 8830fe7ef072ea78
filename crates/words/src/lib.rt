// The words of a line, which spaces and tabs separate, and the place where a byte first stands.
// Each function takes what is left of the text, and returns places in it. Contracts cite specs/Words.antt.
#![tactic(auto)]

ghost use Rattle.std.specs.Prelude.{◌≡◌};
ghost use Rattle.words.specs.Words.{blank, Before, Starts, Stops, FirstWord};

pub mod pieces;

// The place of a word: it is the bytes from start up to end, and there is none where the two are equal.
// Not a `Range`, which is not `Copy`.
#[derive(Clone, Copy)]
pub struct Place {
    pub start: usize,
    pub end: usize,
}

// How many bytes stand before the first that is b; all of them where none is.
// Not an Option: `Before` holds this count where none is too, and its callers cut the text there.
pub fn before(s: &[u8], b: u8) -> usize
    ensures { Before b s.now result }
{
    s.iter().position(|x| *x == b).unwrap_or(s.len())
}

// A byte is a space or a tab.
fn is_blank(b: u8) -> bool
    ensures { result ≡ blank b }
{
    matches!(b, b' ' | b'\t')
}

// How many blanks the text starts with.
fn blanks(s: &[u8]) -> usize
    ensures { Starts s.now result }
{
    s.iter().position(|b| !is_blank(*b)).unwrap_or(s.len())
}

// How many bytes the text starts with that are no blanks. One function with a test passed in is no plainer:
// its clause would speak of the calls of a closure.
fn letters(s: &[u8]) -> usize
    ensures { Stops s.now 0 result }
{
    s.iter().position(|b| is_blank(*b)).unwrap_or(s.len())
}

// The first word of a text.
pub fn word(s: &[u8]) -> Place
    ensures { FirstWord s.now result.start result.end }
{
    let start = blanks(s);
    Place {
        start,
        end: start + letters(&s[start..]),
    }
}
