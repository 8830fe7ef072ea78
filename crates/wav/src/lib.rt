// Recordings as RIFF WAVE files, PCM, one channel, 24 bits: written into a lent slice, and read from one.
// Refusals come before anything is done. Contracts cite specs/Written.antt and specs/Recorded.antt.
#![tactic(auto)]

ghost use Rattle.std.specs.Prelude.{◌≡◌, length};
ghost use Rattle.wav.specs.Written.{write_answer, written, left};
ghost use Rattle.wav.specs.Recorded.{read_answer, recorded, filled};

mod limits;
mod reading;
mod writing;

use reading::readable;
use refusal::Refusal;
use riff::data::{fill, load};
use riff::header::{count_of, rate_of};
use riff::sizes::file_size;
use writing::writable;

// What a file has: its rate, and how many samples there are.
#[derive(Clone, Copy)]
pub struct Recorded {
    pub rate: u32,
    pub count: usize,
}

// Writes samples at a rate as a file, from the start of the slice on, and returns how many bytes the file has.
pub fn write(rate: u32, samples: &[i32], file: &mut [u8]) -> Result<usize, Refusal>
    ensures value { write_answer result ≡ written rate samples.now (length file.old) }
    ensures file_after { file.new ≡ left rate samples.now file.old }
{
    writable(rate, samples, file.len())?;
    fill(file, rate, samples);
    Ok(file_size(samples.len()))
}

// Reads a file's samples, from the start of the slice on.
pub fn read(file: &[u8], samples: &mut [i32]) -> Result<Recorded, Refusal>
    ensures value { read_answer result ≡ recorded file.now (length samples.old) }
    ensures samples_after { samples.new ≡ filled file.now samples.old }
{
    readable(file, samples.len())?;
    let count = count_of(file);
    load(file, &mut samples[..count]);
    Ok(Recorded {
        rate: rate_of(file),
        count,
    })
}
