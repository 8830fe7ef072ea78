// The data: samples put into three bytes each, and read from them. One loop for each way.
// Nothing is tested here: the callers have done it.
ghost use Rattle.std.specs.Prelude.{◌≡◌, ◌++◌, map, ◌+◌, ◌*◌, ◌≤◌, ◌<◌, length, take, drop, replicate};
ghost use Rattle.integer.specs.Rounding.{M, clip as Clip};
ghost use Rattle.samples.specs.Samples.{loudest};
ghost use Rattle.octets.specs.Theorems.{Fits};
ghost use Rattle.octets.specs.Octets.{number, half, signed as Signed, stored, loaded, laid};
ghost use Rattle.riff.specs.Format.{padding as Padding, file_size, file as File};

use crate::header::header;
use crate::sizes::padding;
use integer::Value;
use octets::{bits, get, put, signed};

// Puts the samples behind the header.
fn store(file: &mut [u8], samples: &[i32])
    requires { (44 + 3 * length samples.now ≤ length file.old) × (loudest samples.now ≤ M) }
    ensures { file.new ≡ laid file.old 44 (stored 3 samples.now) }
{
    for (i, &x) in samples.iter().enumerate() {
        let x = Value { n: i64::from(x) };
        put(file, 44 + 3 * i, 3, bits(x, 16_777_216));
    }
}

// Puts the pad byte, where there is one, behind the data of so many samples.
fn pad(file: &mut [u8], count: usize)
    requires { file_size count ≤ length file.old }
    ensures { file.new
        ≡ laid file.old (44 + 3 * count) (replicate (Padding count) 0) }
{
    if padding(count) == 1 {
        file[44 + 3 * count] = 0;
    }
}

// Puts a whole file of samples at a rate.
pub fn fill(file: &mut [u8], rate: u32, samples: &[i32])
    requires { (file_size (length samples.now) ≤ length file.old) × (loudest samples.now ≤ M) }
    ensures { file.new
        ≡ File rate samples.now
        ++ drop (file_size (length samples.now)) file.old }
{
    header(file, u64::from(rate), samples.len());
    store(file, samples);
    pad(file, samples.len());
}

// The sample that is nearest to a number of 24 bits.
fn nearest(x: Value) -> Value
    requires { Fits 3 x.n }
    ensures { result.n ≡ Clip x.n }
{
    Value {
        n: x.n.max(-8_388_607),
    }
}

// The sample that three bytes read as.
fn sample(file: &[u8], at: usize) -> Value
    requires { at + 3 ≤ length file.now }
    ensures { result.n ≡ Clip (Signed (half 3) (number (take 3 (drop at file.now)))) }
{
    nearest(signed(get(file, at, 3), 8_388_608))
}

// Reads as many samples as the slice has places, from behind the header on.
pub fn load(file: &[u8], samples: &mut [i32])
    requires { 44 + 3 * length samples.old ≤ length file.now }
    ensures { samples.new
        ≡ map Clip (loaded 3 (length samples.old) (drop 44 file.now)) }
{
    for i in 0..samples.len() {
        samples::write(samples, i, sample(file, 44 + 3 * i));
    }
}
