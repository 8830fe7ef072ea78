// The routines as include/jivaszte.h has them, which the crate jivaszte_c exports to programs in other languages.
// A contract cites the called routine's definition; a refusal is returned, the rest is left in what is lent.
#![tactic(auto)]

ghost use Rattle.std.specs.Prelude.{◌≡◌, ◌≤◌, length, drop};
ghost use Rattle.thiran.specs.Answers.{design};
ghost use Rattle.allpass.specs.Length.{effective_length};
ghost use Rattle.advance.specs.Least.{least_advance};
ghost use Rattle.pitch.specs.Pitch.{pitch};
ghost use Rattle.noise.specs.Noise.{drawn};
ghost use Rattle.octets.specs.Octets.{gathered};
ghost use Rattle.record.specs.Record.{fields as Fields, rest as Rest};
ghost use Rattle.list.specs.Performed.{Performs};
ghost use Rattle.score.specs.Played.{Runs};
ghost use Rattle.timeline.specs.Answered.{Answered};
ghost use Rattle.wav.specs.Written.{written, left};
ghost use Rattle.wav.specs.Recorded.{recorded, filled};

use list::Performed;
use open::Opening;
use pitch::Parts;
use refusal::code;
use thiran::Taps;
use voice::Tuning;
use wav::Recorded;

pub mod calls;
pub mod hosts;
pub mod instruments;
pub mod junctions;
pub mod stored;

// A1, A2 and A3 of an order and a delay.
pub fn jivaszte_coefficients(order: u32, d: u32, a1: &mut i32, a2: &mut i32, a3: &mut i32) -> u32
    ensures { record {
      refusal = result;
      a1 = a1.new;
      a2 = a2.new;
      a3 = a3.new;
    } ≡ design order d }
{
    let answer = thiran::coefficients(order, d);
    let c = answer.unwrap_or(Taps {
        a1: 0,
        a2: 0,
        a3: 0,
    });
    *a1 = c.a1;
    *a2 = c.a2;
    *a3 = c.a3;
    code(answer)
}

// The index of the last value of the eliminator's response that exceeds the threshold, plus one.
pub fn jivaszte_effective_length(order: u32, d: u32, threshold: u32, effective: &mut u32) -> u32
    ensures { record { refusal = result; length = effective.new } ≡ effective_length order d threshold }
{
    let answer = allpass::effective_length(order, d, threshold);
    *effective = answer.unwrap_or(0);
    code(answer)
}

// The least advance with which each sample after a change to an order and a delay is at most `wanted` from the ideal.
pub fn jivaszte_least_advance(order: u32, d: u32, wanted: u32, advance: &mut u32) -> u32
    ensures { record { refusal = result; na = advance.new } ≡ least_advance order d wanted }
{
    let answer = advance::least(order, d, wanted);
    *advance = answer.unwrap_or(0);
    code(answer)
}

// L and d of a note at a rate.
pub fn jivaszte_note(order: u32, rate: u32, note: u32, span: &mut u32, delay: &mut u32) -> u32
    ensures { record { refusal = result; length = span.new; delay = delay.new }
        ≡ pitch order rate note }
{
    let answer = pitch::note(order, rate, note);
    let p = answer.unwrap_or(Parts {
        length: 0,
        delay: 0,
    });
    *span = p.length;
    *delay = p.delay;
    code(answer)
}

// One draw on the noise state that is lent.
pub fn jivaszte_draw(noise: &mut u32) -> i32
    ensures { record { value = result; state = noise.new } ≡ drawn noise.old }
{
    let d = noise::draw(*noise);
    *noise = d.state;
    d.value
}

// Reads the record that the bytes start with, and returns how many bytes it takes: 0 where it is refused.
pub fn jivaszte_record(score: &[u8], fields: &mut [u32; 9]) -> usize
    ensures fields_after { fields.new ≡ Fields score.now }
    ensures upper_bound { (result ≤ length score.now)
        × (drop result score.now ≡ Rest score.now) }
{
    record::read(score, fields)
}

// The number that the bytes from start on make, eight at most.
pub fn jivaszte_gather(bytes: &[u8], start: usize) -> u64
    ensures { result ≡ gathered bytes.now start }
{
    octets::gather(bytes, start)
}

// A list of calls, in words, on a fresh voice.
pub fn jivaszte_perform(
    order: u32,
    span: u32,
    delay: u32,
    loss: u32,
    advance: u32,
    words: &[u32],
    input: &[i32],
    output: &mut [i32],
    numbers: &mut [u32],
    opening: &mut u32,
    written: &mut usize,
) -> u32
    ensures { Performs
        (record { N = order; L = span; d = delay; G = loss; Na = advance })
        words.now
        input.now
        output.old
        numbers.old
        (record { refusal = result; opening = opening.new; written = written.new })
        output.new
        numbers.new }
{
    let asked = Opening {
        tuning: Tuning {
            order,
            length: span,
            delay,
        },
        loss,
        advance,
    };
    let answer = list::perform(asked, words, input, output, numbers);
    let p = answer.unwrap_or(Performed {
        opening: Ok(()),
        written: 0,
    });
    *opening = code(p.opening);
    *written = p.written;
    code(answer)
}

// The run of a score.
pub fn jivaszte_run(score: &[u8], output: &mut [i32], place: &mut usize, written: &mut usize) -> u32
    ensures { Runs score.now output.old
        (record { refusal = result; place = place.new; written = written.new })
        output.new }
{
    let p = score::run(score, output);
    *place = p.place;
    *written = p.written;
    code(p.answer)
}

// Merges two scores into the bytes lent.
pub fn jivaszte_merge(first: &[u8], second: &[u8], bytes: &mut [u8], length: &mut usize) -> u32
    ensures { Answered first.now second.now bytes.old result
        length.new bytes.new }
{
    let answer = merge::merge(first, second, bytes);
    *length = answer.unwrap_or(0);
    code(answer)
}

// Writes samples at a rate as a WAV file.
pub fn jivaszte_wav_write(rate: u32, samples: &[i32], file: &mut [u8], count: &mut usize) -> u32
    ensures count_after { record { refusal = result; count = count.new }
        ≡ written rate samples.now (length file.old) }
    ensures file_after { file.new ≡ left rate samples.now file.old }
{
    let answer = wav::write(rate, samples, file);
    *count = answer.unwrap_or(0);
    code(answer)
}

// Reads the samples of a WAV file, and its rate.
pub fn jivaszte_wav_read(file: &[u8], samples: &mut [i32], rate: &mut u32, count: &mut usize) -> u32
    ensures count_after { record { refusal = result; rate = rate.new; count = count.new }
        ≡ recorded file.now (length samples.old) }
    ensures samples_after { samples.new ≡ filled file.now samples.old }
{
    let answer = wav::read(file, samples);
    let r = answer.unwrap_or(Recorded { rate: 0, count: 0 });
    *rate = r.rate;
    *count = r.count;
    code(answer)
}

// The version, which header and program have too: 0.1.0 is 100, and 1.2.3 would be 10,203.
pub fn jivaszte_version() -> u32
    ensures { result ≡ 100 }
{
    100
}
