// The pieces of a text that a byte separates, and a line without the carriage return that ends it.
// Each function returns a part of the text. Contracts cite specs/Pieces.antt.
ghost use Rattle.std.specs.Prelude.{◌≡◌};
ghost use Rattle.words.specs.Pieces.{cut, past, piece as Piece, bare as Bare};

use crate::before;

// What stands before the first byte that is b; all of it where none is.
pub fn ahead(s: &[u8], b: u8) -> &[u8]
    ensures { result.now ≡ cut b s.now }
{
    &s[..before(s, b)]
}

// What stands after the first byte that is b; nothing where none is.
pub fn after(s: &[u8], b: u8) -> &[u8]
    ensures { result.now ≡ past b s.now }
{
    s.get(before(s, b) + 1..).unwrap_or(&[])
}

// The piece k, from 0 on.
pub fn piece(s: &[u8], b: u8, k: usize) -> &[u8]
    ensures { result.now ≡ Piece b k s.now }
{
    let mut rest = s;
    for _ in 0..k {
        rest = after(rest, b);
    }
    ahead(rest, b)
}

// A line without the carriage return that ends it.
pub fn bare(s: &[u8]) -> &[u8]
    ensures { result.now ≡ Bare s.now }
{
    match s {
        [line @ .., b'\r'] => line,
        _ => s,
    }
}
