// Text put into a lent buffer at a place; the place after it is returned. Contracts cite specs/Written.antt.
// Where the text does not fit, the buffer is left as it was, and the same place is returned.
// A buffer and a place, and no struct: Wrote, Spelled and Signed speak of the two.
#![tactic(auto)]

ghost use Rattle.std.specs.Prelude.{◌/◌, ◌%◌, ◌<◌, [], ◌∷◌, ◌≡◌};
ghost use Rattle.io.specs.Digits.{hex_digit_ascii};
ghost use Rattle.write.specs.Written.{Wrote, Spelled, Signed};

// The bytes of s.
pub fn bytes(buffer: &mut [u8], at: usize, s: &[u8]) -> usize
    ensures { Wrote s.now buffer.old at buffer.new result }
{
    if at > buffer.len() || s.len() > buffer.len() - at {
        return at;
    }
    let end = at + s.len();
    buffer[at..end].copy_from_slice(s);
    end
}

// A number in decimal digits, the fewest.
pub fn number(buffer: &mut [u8], at: usize, n: u64) -> usize
    ensures { Spelled n buffer.old at buffer.new result }
{
    let mut digits = [0u8; 20];
    let k = io::decimal(n, &mut digits);
    bytes(buffer, at, &digits[..k])
}

// A number with a sign: a `-` where it is below zero, and then its magnitude.
pub fn signed(buffer: &mut [u8], at: usize, x: i64) -> usize
    ensures { Signed x buffer.old at buffer.new result }
{
    if x >= 0 {
        return number(buffer, at, x.unsigned_abs());
    }
    let start = bytes(buffer, at, b"-");
    number(buffer, start, x.unsigned_abs())
}

// A hexadecimal digit, by a table: where it is worked out, as io's hex does, a printed file takes a third more
// instructions.
fn digit(n: u8) -> u8
    requires { n < 16 }
    ensures { result ≡ hex_digit_ascii n }
{
    b"0123456789abcdef"[n as usize]
}

// A byte in two hexadecimal digits.
pub fn hex(buffer: &mut [u8], at: usize, b: u8) -> usize
    ensures { Wrote (hex_digit_ascii (b / 16) ∷ hex_digit_ascii (b % 16) ∷ []) buffer.old at
        buffer.new result }
{
    bytes(buffer, at, &[digit(b / 16), digit(b % 16)])
}
