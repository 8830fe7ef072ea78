// A byte in hexadecimal digits; None where a word spells none.
ghost use Rattle.std.specs.Prelude.{◌≡◌, IfSome, ◌<◌};
ghost use Rattle.text.specs.Numbers.{hex_of, byte_of};

// The value of a hexadecimal digit.
fn hex(b: u8) -> Option<u8>
    ensures value { result ≡ hex_of b }
    ensures bound { IfSome result (λ n. n < 16) }
{
    match b {
        b'0'..=b'9' => Some(b - b'0'),
        b'a'..=b'f' => Some(b - b'a' + 10),
        b'A'..=b'F' => Some(b - b'A' + 10),
        _ => None,
    }
}

// A byte in two hexadecimal digits.
pub fn read_byte(word: &[u8]) -> Option<u8>
    ensures { result ≡ byte_of word.now }
{
    match word {
        [high, low] => Some(16 * hex(*high)? + hex(*low)?),
        _ => None,
    }
}
