// Numbers in bytes, low byte first, put into a slice and read from one at any place and width.
// Contracts cite specs/Octets.antt.
#![tactic(auto)]

ghost use Rattle.std.specs.Prelude.{◌≡◌, ℕ, ◌+◌, ◌*◌, ◌^◌, ◌≤◌, ◌<◌, nat_abs, length, take, drop};
ghost use Rattle.octets.specs.Octets.{number, bytes, bits as Bits, signed as Signed, laid};

use integer::Value;

mod word;

pub use word::{eight, four, gather};

// Puts the lowest width bytes of n into the slice, from the place at on.
pub fn put(out: &mut [u8], at: usize, width: usize, n: u64)
    requires { at + width ≤ length out.old }
    ensures { out.new ≡ laid out.old at (bytes width n) }
{
    let mut left = n;
    for k in 0..width {
        out[at + k] = (left % 256) as u8;
        left /= 256;
    }
}

// The number that width bytes of the slice make, from the place at on.
pub fn get(s: &[u8], at: usize, width: usize) -> u64
    requires { (width ≤ 8) × (at + width ≤ length s.now) }
    ensures { (result ≡ number (take width (drop at s.now))) × (result < 2 ^ (8 * width)) }
{
    let mut n = 0;
    for k in (0..width).rev() {
        n = n * 256 + u64::from(s[at + k]);
    }
    n
}

// The same where some of the bytes, or all, are missing: these count as 0.
pub fn part(s: &[u8], at: usize, width: usize) -> u64
    requires { width ≤ 8 }
    ensures { (result ≡ number (take width (drop at s.now))) × (result < 2 ^ (8 * width)) }
{
    if s.len() <= at {
        return 0;
    }
    let left = s.len() - at;
    if left < width {
        return get(s, at, left);
    }
    get(s, at, width)
}

// The signed number whose two's complement is n, where half is the weight of the sign's bit.
pub fn signed(n: u64, half: u64) -> Value
    requires { (n < 2 * half) × (half < 2 ^ 62) }
    ensures { result.n ≡ Signed half n }
{
    if n < half {
        return Value { n: n as i64 };
    }
    Value {
        n: (n as i64) - ((2 * half) as i64),
    }
}

// A number that has the two's complement of x in its lowest bytes, as many as full is 256 to the power of.
pub fn bits(x: Value, full: u64) -> u64
    requires { (nat_abs x.n ≤ full) × (full < 2 ^ 62) }
    ensures { (w : ℕ) → full ≡ 2 ^ (8 * w) → bytes w result ≡ bytes w (Bits w x.n) }
{
    (x.n + (full as i64)) as u64
}
