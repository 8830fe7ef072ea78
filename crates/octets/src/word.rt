// Up to eight bytes of a slice in one word. Where all eight are there no loop runs, and the compiler makes one load
// of them. Contracts cite specs/Octets.antt.
ghost use Rattle.std.specs.Prelude.{◌≡◌, ◌+◌, ◌^◌, ◌≤◌, ◌<◌, length, take, drop};
ghost use Rattle.octets.specs.Octets.{number, gathered};

use crate::part;

// Four and eight bytes that are there.
pub fn four(s: &[u8], at: usize) -> u64
    requires { at + 4 ≤ length s.now }
    ensures { (result ≡ number (take 4 (drop at s.now))) × (result < 2 ^ 32) }
{
    u64::from(u32::from_le_bytes(*s[at..at + 4].first_chunk().unwrap()))
}

pub fn eight(s: &[u8], at: usize) -> u64
    requires { at + 8 ≤ length s.now }
    ensures { result ≡ gathered s.now at }
{
    u64::from_le_bytes(*s[at..at + 8].first_chunk().unwrap())
}

// The number that the bytes from start on make, eight at most, the first lowest; missing ones are 0.
pub fn gather(s: &[u8], start: usize) -> u64
    ensures { result ≡ gathered s.now start }
{
    if s.len() <= start {
        return 0;
    }
    if s.len() - start < 8 {
        return part(s, start, 8);
    }
    eight(s, start)
}
