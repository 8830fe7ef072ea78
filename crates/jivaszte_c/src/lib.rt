// The routines for programs in other languages, by the C calling convention, as include/jivaszte.h has them.
// Each calls the routine of the crate jivaszte by its name, and states its clauses again.
#![tactic(auto)]

ghost use Rattle.std.specs.Prelude.{◌≡◌, ◌≤◌, length, drop};
ghost use Rattle.thiran.specs.Answers.{design};
ghost use Rattle.allpass.specs.Length.{effective_length};
ghost use Rattle.advance.specs.Least.{least_advance};
ghost use Rattle.pitch.specs.Pitch.{pitch};
ghost use Rattle.noise.specs.Noise.{drawn};
ghost use Rattle.octets.specs.Octets.{gathered};
ghost use Rattle.record.specs.Record.{fields as Fields, rest as Rest};
ghost use Rattle.list.specs.Performed.{Performs};
ghost use Rattle.score.specs.Played.{Runs};
ghost use Rattle.timeline.specs.Answered.{Answered};
ghost use Rattle.wav.specs.Written.{written, left};
ghost use Rattle.wav.specs.Recorded.{recorded, filled};

mod calls;
mod hosts;
mod instruments;
mod junctions;
mod stored;

// A1, A2 and A3 of an order and a delay.
#[unsafe(no_mangle)]
pub extern "C" fn jivaszte_coefficients(
    order: u32,
    d: u32,
    a1: &mut i32,
    a2: &mut i32,
    a3: &mut i32,
) -> u32
    ensures { record {
      refusal = result;
      a1 = a1.new;
      a2 = a2.new;
      a3 = a3.new;
    } ≡ design order d }
{
    jivaszte::jivaszte_coefficients(order, d, a1, a2, a3)
}

// The index of the last value of the eliminator's response that exceeds the threshold, plus one.
#[unsafe(no_mangle)]
pub extern "C" fn jivaszte_effective_length(
    order: u32,
    d: u32,
    threshold: u32,
    effective: &mut u32,
) -> u32
    ensures { record { refusal = result; length = effective.new } ≡ effective_length order d threshold }
{
    jivaszte::jivaszte_effective_length(order, d, threshold, effective)
}

// The least advance with which each sample after a change to an order and a delay is at most `wanted` from the ideal.
#[unsafe(no_mangle)]
pub extern "C" fn jivaszte_least_advance(order: u32, d: u32, wanted: u32, advance: &mut u32) -> u32
    ensures { record { refusal = result; na = advance.new } ≡ least_advance order d wanted }
{
    jivaszte::jivaszte_least_advance(order, d, wanted, advance)
}

// L and d of a note at a rate.
#[unsafe(no_mangle)]
pub extern "C" fn jivaszte_note(
    order: u32,
    rate: u32,
    note: u32,
    span: &mut u32,
    delay: &mut u32,
) -> u32
    ensures { record { refusal = result; length = span.new; delay = delay.new }
        ≡ pitch order rate note }
{
    jivaszte::jivaszte_note(order, rate, note, span, delay)
}

// One draw on the noise state that is lent.
#[unsafe(no_mangle)]
pub extern "C" fn jivaszte_draw(noise: &mut u32) -> i32
    ensures { record { value = result; state = noise.new } ≡ drawn noise.old }
{
    jivaszte::jivaszte_draw(noise)
}

// Reads the record that the bytes start with, and returns how many bytes it takes: 0 where it is refused.
#[unsafe(no_mangle)]
pub extern "C" fn jivaszte_record(score: &[u8], fields: &mut [u32; 9]) -> usize
    ensures fields_after { fields.new ≡ Fields score.now }
    ensures upper_bound { (result ≤ length score.now)
        × (drop result score.now ≡ Rest score.now) }
{
    jivaszte::jivaszte_record(score, fields)
}

// The number that the bytes from start on make, eight at most.
#[unsafe(no_mangle)]
pub extern "C" fn jivaszte_gather(bytes: &[u8], start: usize) -> u64
    ensures { result ≡ gathered bytes.now start }
{
    jivaszte::jivaszte_gather(bytes, start)
}

// A list of calls, in words, on a fresh voice.
#[unsafe(no_mangle)]
pub extern "C" fn jivaszte_perform(
    order: u32,
    span: u32,
    delay: u32,
    loss: u32,
    advance: u32,
    words: &[u32],
    input: &[i32],
    output: &mut [i32],
    numbers: &mut [u32],
    opening: &mut u32,
    written: &mut usize,
) -> u32
    ensures { Performs
        (record { N = order; L = span; d = delay; G = loss; Na = advance })
        words.now
        input.now
        output.old
        numbers.old
        (record { refusal = result; opening = opening.new; written = written.new })
        output.new
        numbers.new }
{
    jivaszte::jivaszte_perform(
        order, span, delay, loss, advance, words, input, output, numbers, opening, written,
    )
}

// The run of a score.
#[unsafe(no_mangle)]
pub extern "C" fn jivaszte_run(
    score: &[u8],
    output: &mut [i32],
    place: &mut usize,
    written: &mut usize,
) -> u32
    ensures { Runs score.now output.old
        (record { refusal = result; place = place.new; written = written.new })
        output.new }
{
    jivaszte::jivaszte_run(score, output, place, written)
}

// Merges two scores into the bytes lent.
#[unsafe(no_mangle)]
pub extern "C" fn jivaszte_merge(
    first: &[u8],
    second: &[u8],
    bytes: &mut [u8],
    length: &mut usize,
) -> u32
    ensures { Answered first.now second.now bytes.old result
        length.new bytes.new }
{
    jivaszte::jivaszte_merge(first, second, bytes, length)
}

// Writes samples at a rate as a WAV file.
#[unsafe(no_mangle)]
pub extern "C" fn jivaszte_wav_write(
    rate: u32,
    samples: &[i32],
    file: &mut [u8],
    count: &mut usize,
) -> u32
    ensures count_after { record { refusal = result; count = count.new }
        ≡ written rate samples.now (length file.old) }
    ensures file_after { file.new ≡ left rate samples.now file.old }
{
    jivaszte::jivaszte_wav_write(rate, samples, file, count)
}

// Reads the samples of a WAV file, and its rate.
#[unsafe(no_mangle)]
pub extern "C" fn jivaszte_wav_read(
    file: &[u8],
    samples: &mut [i32],
    rate: &mut u32,
    count: &mut usize,
) -> u32
    ensures count_after { record { refusal = result; rate = rate.new; count = count.new }
        ≡ recorded file.now (length samples.old) }
    ensures samples_after { samples.new ≡ filled file.now samples.old }
{
    jivaszte::jivaszte_wav_read(file, samples, rate, count)
}

// The version, which header and program have too: 0.1.0 is 100, and 1.2.3 would be 10,203.
#[unsafe(no_mangle)]
pub extern "C" fn jivaszte_version() -> u32
    ensures { result ≡ 100 }
{
    jivaszte::jivaszte_version()
}
