// What reading turns down: "19, 17, 18", by the first test that is not met.
// A file is told from other bytes by the header that its own rate and count of samples would have.
ghost use Rattle.std.specs.Prelude.{◌≡◌, true, ◌↔◌, ◌+◌, ◌*◌, ◌^◌, ◌≤◌, ◌<◌, [], ◌∷◌, length, take, drop, replicate};
ghost use Rattle.refusal.specs.Limits.{refusal as First};
ghost use Rattle.refusal.specs.Numbers.{code_of};
ghost use Rattle.riff.specs.Format.{padding as Padding, riff_size, file_size, header as Header};
ghost use Rattle.wav.specs.Recorded.{is_file, formed, reading_number};

use crate::limits::{rated, roomy};
use refusal::Refusal;
use riff::header::{count_of, header, rate_of};
use riff::sizes::{file_size, padding, riff_size};

// The byte rate and the RIFF size fit their four bytes.
fn fitting(rate: u32, count: usize) -> bool
    requires { count < 2 ^ 62 }
    ensures { (result ≡ true) ↔ ((3 * rate < 2 ^ 32) × (riff_size count < 2 ^ 32)) }
{
    3 * u64::from(rate) < 4_294_967_296 && riff_size(count) < 4_294_967_296
}

// The first 44 bytes are the header of so many samples at a rate.
fn headed(file: &[u8], rate: u32, count: usize) -> bool
    requires { (44 ≤ length file.now) × (count < 2 ^ 62) }
    ensures { (result ≡ true) ↔ (take 44 file.now ≡ Header rate count) }
{
    let mut expected = [0u8; 44];
    header(&mut expected, u64::from(rate), count);
    check::same(&file[..44], &expected)
}

// The pad byte of so many samples is zero, where there is one.
fn padded(file: &[u8], count: usize) -> bool
    requires { length file.now ≡ file_size count }
    ensures { (result ≡ true)
        ↔ (drop (44 + 3 * count) file.now ≡ replicate (Padding count) 0) }
{
    padding(count) == 0 || file[44 + 3 * count] == 0
}

// The bytes are a file.
fn is_file(file: &[u8]) -> bool
    ensures { result ≡ is_file file.now }
{
    let rate = rate_of(file);
    let count = count_of(file);
    if !fitting(rate, count) {
        return false;
    }
    if file.len() != file_size(count) {
        return false;
    }
    if !headed(file, rate, count) {
        return false;
    }
    padded(file, count)
}

// The bytes are a file, or refused.
fn formed(file: &[u8]) -> Result<(), Refusal>
    ensures { code_of result ≡ First (formed file.now ∷ []) }
{
    if !is_file(file) {
        return Err(Refusal::FileForm);
    }
    Ok(())
}

// The tests of reading.
pub fn readable(file: &[u8], room: usize) -> Result<(), Refusal>
    ensures { code_of result ≡ reading_number file.now room }
{
    let count = count_of(file);
    formed(file)?;
    rated(rate_of(file))?;
    roomy(count, count, room)
}
