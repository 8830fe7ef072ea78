// The 44 bytes before the data: put field by field, and the two fields that are read from them.
// The four letters of a name are a number too, low byte first.
ghost use Rattle.std.specs.Prelude.{◌≡◌, ◌^◌, ◌≤◌, ◌<◌, length};
ghost use Rattle.octets.specs.Octets.{laid};
ghost use Rattle.riff.specs.Format.{riff as Riff, format as Format, data_head, header as Header};
ghost use Rattle.riff.specs.Held.{rate_of, count_of};

use crate::sizes::padding;
use octets::{part, put};

// The letters `RIFF`, the RIFF size and the letters `WAVE`.
fn riff(file: &mut [u8], size: usize)
    requires { 12 ≤ length file.old }
    ensures { file.new ≡ laid file.old 0 (Riff size) }
{
    put(file, 0, 4, 0x4646_4952);
    put(file, 4, 4, size as u64);
    put(file, 8, 4, 0x4556_4157);
}

// The letters `fmt ` and the size of the seven fields after it: PCM, one channel, the rate, the byte rate,
// three bytes and 24 bits a sample.
fn format(file: &mut [u8], rate: u64)
    requires { (36 ≤ length file.old) × (rate < 2 ^ 32) }
    ensures { file.new ≡ laid file.old 12 (Format rate) }
{
    put(file, 12, 4, 0x2074_6D66);
    put(file, 16, 4, 16);
    put(file, 20, 2, 1);
    put(file, 22, 2, 1);
    put(file, 24, 4, rate);
    put(file, 28, 4, 3 * rate);
    put(file, 32, 2, 3);
    put(file, 34, 2, 24);
}

// The letters `data` and the data size.
fn data_head(file: &mut [u8], size: usize)
    requires { 44 ≤ length file.old }
    ensures { file.new ≡ laid file.old 36 (data_head size) }
{
    put(file, 36, 4, 0x6174_6164);
    put(file, 40, 4, size as u64);
}

// The whole header of so many samples at a rate.
pub fn header(file: &mut [u8], rate: u64, count: usize)
    requires { (44 ≤ length file.old) × (rate < 2 ^ 32) × (count < 2 ^ 62) }
    ensures { file.new ≡ laid file.old 0 (Header rate count) }
{
    let size = 3 * count;
    let padded = size + padding(count);
    riff(file, 36 + padded);
    format(file, rate);
    data_head(file, size);
}

// The rate of a file, 0 for each byte of it that is missing.
pub fn rate_of(file: &[u8]) -> u32
    ensures { result ≡ rate_of file.now }
{
    part(file, 24, 4) as u32
}

// How many samples its data size counts.
pub fn count_of(file: &[u8]) -> usize
    ensures { (result ≡ count_of file.now) × (result < 2 ^ 32) }
{
    (part(file, 40, 4) / 3) as usize
}
