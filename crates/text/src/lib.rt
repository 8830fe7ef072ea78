// What a word spells: a number, a sample or a byte; None where it spells none.
// The whole word is read: a word with any other byte in it spells nothing. Contracts cite specs/Numbers.antt.
#![tactic(auto)]

ghost use Rattle.std.specs.Prelude.{◌≡◌};
ghost use Rattle.text.specs.Numbers.{number_of, negated, kept, sample_of};

pub mod byte;

// A number in decimal digits, below 2^32.
pub fn read_number(word: &[u8]) -> Option<u32>
    ensures { result ≡ number_of word.now }
{
    if word.is_empty() {
        return None;
    }
    let mut n: u32 = 0;
    for &b in word {
        if !b.is_ascii_digit() {
            return None;
        }
        n = n.checked_mul(10)?.checked_add((b - b'0') as u32)?;
    }
    Some(n)
}

// The number below zero, where it is at most 2^31.
fn negative(n: Option<u32>) -> Option<i32>
    ensures { result ≡ negated n }
{
    i32::try_from(-(n? as i64)).ok()
}

// The number itself, where it is below 2^31.
fn positive(n: Option<u32>) -> Option<i32>
    ensures { result ≡ kept n }
{
    i32::try_from(n?).ok()
}

// A number of 32 bits with a sign: a `-` may stand before the digits.
pub fn read_sample(word: &[u8]) -> Option<i32>
    ensures { result ≡ sample_of word.now }
{
    match word {
        [b'-', digits @ ..] => negative(read_number(digits)),
        _ => positive(read_number(word)),
    }
}
