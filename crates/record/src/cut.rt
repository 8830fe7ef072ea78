// The fields of a record, cut from words of its bytes.
// Contracts cite specs/Words.antt, whose law says that these are the record's fields.
ghost use Rattle.std.specs.Prelude.{◌≡◌, ◌∷◌, ◌*◌, ◌/◌, ◌%◌, ◌^◌, ◌<◌};
ghost use Rattle.octets.specs.Octets.{gathered};
ghost use Rattle.record.specs.Record.{before, present};
ghost use Rattle.record.specs.Words.{cuts_from};

use crate::{
    HAS_AMPLITUDE, HAS_COUNT, HAS_DELAY, HAS_LENGTH, HAS_LOSS, HAS_SEED, HAS_WAIT, bit, count,
};
use octets::{eight, gather};

// The field whose bit counts unit, which stands lowest in a word; 0 where it is absent. The 16 bits are cut
// before the bit is looked at, so that no branch hangs on it.
fn field(w: u64, map: u32, unit: u32) -> u32
    requires { 0 < unit }
    ensures { result ≡ present (map / unit % 2) (w % 65536) }
{
    let v = (w % 65_536) as u32;
    if bit(map, unit) == 0 {
        return 0;
    }
    v
}

// What is left of a word behind that field.
fn past(w: u64, map: u32, unit: u32) -> u64
    requires { 0 < unit }
    ensures { result ≡ w / 2 ^ (8 * (2 * (map / unit % 2))) }
{
    w >> (16 * bit(map, unit))
}

// The two words of a record: low is that of wait, L, d and G, high that of amplitude, count and seed.
#[derive(Clone, Copy)]
pub struct Words {
    pub low: u64,
    pub high: u64,
}

// The place of the amplitude, behind wait, L, d and G.
fn plucked(map: u32) -> usize
    ensures { result ≡ before map 4 }
{
    1 + 2 * (count(map % 16) as usize)
}

// Gathers both words. Where 17 bytes are there both are whole, whatever the bit map.
pub fn words_of(s: &[u8], map: u32) -> Words
    ensures { (result.low ≡ gathered s.now 1)
        × (result.high ≡ gathered s.now (before map 4)) }
{
    let at = plucked(map);
    if s.len() < 17 {
        return Words {
            low: gather(s, 1),
            high: gather(s, at),
        };
    }
    Words {
        low: eight(s, 1),
        high: eight(s, at),
    }
}

// A record that is whole: 0, its bit map and its fields, cut from its words. Without a pluck the second is not
// looked at.
pub fn fill(w: Words, map: u32, fields: &mut [u32; 9])
    ensures { fields.new ≡ 0 ∷ cuts_from map w.low w.high }
{
    let w0 = w.low;
    let w1 = past(w0, map, HAS_WAIT);
    let w2 = past(w1, map, HAS_LENGTH);
    let w3 = past(w2, map, HAS_DELAY);
    let wait = field(w0, map, HAS_WAIT);
    let length = field(w1, map, HAS_LENGTH);
    let delay = field(w2, map, HAS_DELAY);
    let loss = field(w3, map, HAS_LOSS);
    if map / HAS_AMPLITUDE % 8 == 0 {
        *fields = [0, map, wait, length, delay, loss, 0, 0, 0];
        return;
    }
    let w4 = w.high;
    let w5 = past(w4, map, HAS_AMPLITUDE);
    let w6 = past(w5, map, HAS_COUNT);
    *fields = [
        0,
        map,
        wait,
        length,
        delay,
        loss,
        field(w4, map, HAS_AMPLITUDE),
        field(w5, map, HAS_COUNT),
        field(w6, map, HAS_SEED),
    ];
}
