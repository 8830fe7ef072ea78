// A note's length and delay at a sampling rate: the octave's table, the period T, and its split.
// Contracts cite specs/Pitch.antt.
#![tactic(auto)]

ghost use Rattle.std.specs.Prelude.{◌≡◌, [], ◌∷◌, ◌+◌, ◌*◌, ◌/◌, ◌^◌, ◌≤◌, ◌<◌, pos, get_or};
ghost use Rattle.integer.specs.Parts.{up};
ghost use Rattle.refusal.specs.Limits.{refusal};
ghost use Rattle.refusal.specs.Orders.{orders};
ghost use Rattle.pitch.specs.Pitch.{octave, k, period, split_l, note_length, answer, pitch, pitch_of};

use integer::{Value, round_half_up};
use refusal::{LONGEST, ORDERS, Refusal, within};

// Entry k is nearest to 2^24 × 2^(k/12).
const OCTAVE: [u64; 12] = [
    16_777_216, 17_774_841, 18_831_788, 19_951_585, 21_137_968, 22_394_897, 23_726_566, 25_137_421,
    26_632_170, 28_215_802, 29_893_600, 31_671_166,
];

// The length and the delay of a voice.
#[derive(Clone, Copy)]
pub struct Parts {
    pub length: u32,
    pub delay: u32,
}

// t, the entry at a place.
fn entry(place: usize) -> u64
    requires { place < 12 }
    ensures { result ≡ get_or octave place 0 }
{
    OCTAVE[place]
}

// 440·t·2^(o + 6), by which the period divides: m + 3 = 12·(o + 6) + k, so that no power is below zero.
fn divisor(m: u32) -> u64
    requires { m ≤ 127 }
    ensures { result ≡ 440 * get_or octave (k m) 0 * 2 ^ ((m + 3) / 12) }
{
    let raised = m + 3;
    (440 * entry((raised % 12) as usize)) << (raised / 12)
}

// T, with 2^42 above for that power.
fn loop_period(rate: u32, m: u32) -> u32
    requires { (rate ≤ 192000) × (m ≤ 127) }
    ensures { pos result ≡ period rate m }
{
    let above = rate as i64 * 4_398_046_511_104;
    let below = divisor(m);
    round_half_up(Value { n: above }, below).n as u32
}

// L where T is t, and 0 where L is below zero.
fn whole(order: u32, t: u32) -> u32
    requires { (1 ≤ order) × (order ≤ orders) }
    ensures { result ≡ up (split_l order (pos t)) }
{
    t.saturating_sub(4_096 * order + 1) / 4_096
}

// What is returned where only L is still to be tested, and T is t.
pub fn split(order: u32, t: u32) -> Result<Parts, Refusal>
    requires { (1 ≤ order) × (order ≤ orders) }
    ensures { pitch_of result ≡ answer order (pos t) (refusal (note_length (split_l order (pos t)) ∷ [])) }
{
    let length = whole(order, t);
    within(Refusal::NoteLength, length, 1, LONGEST)?;
    Ok(Parts {
        length,
        delay: t - 2_048 - 4_096 * length,
    })
}

// The length and the delay by which a voice of an order sounds a note.
pub fn note(order: u32, rate: u32, m: u32) -> Result<Parts, Refusal>
    ensures { pitch_of result ≡ pitch order rate m }
{
    within(Refusal::Order, order, 1, ORDERS)?;
    within(Refusal::Rate, rate, 8_000, 192_000)?;
    within(Refusal::Note, m, 0, 127)?;
    split(order, loop_period(rate, m))
}
