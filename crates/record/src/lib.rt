// One record of a score: its bit map, its fields, and the part of the score after it.
// The whole record is tested before any field is read.
#![tactic(auto)]

ghost use Rattle.std.specs.Prelude.{◌≡◌, ◌↔◌, IsTrue, OnOk, ◌∷◌, ◌+◌, ◌*◌, ◌/◌, ◌%◌, ◌≤◌, ◌<◌, length, drop, replicate};
ghost use Rattle.record.specs.Record.{bytes as bytes_of, word as Word, without as Without};
ghost use Rattle.refusal.specs.Numbers.{number_of, code_of};
ghost use Rattle.record.specs.Record.{map_of, ill_formed, record_number};
ghost use Rattle.record.specs.Record.{fields as Fields, rest as Rest};

mod cut;

use cut::{fill, words_of};
use refusal::Refusal;

// The nine numbers of a record that is read: its number, its bit map, and its seven fields.
pub const NUMBER: usize = 0;

pub const MAP: usize = 1;

pub const WAIT: usize = 2;

pub const LENGTH: usize = 3;

pub const DELAY: usize = 4;

pub const LOSS: usize = 5;

pub const AMPLITUDE: usize = 6;

pub const COUNT: usize = 7;

pub const SEED: usize = 8;

// What each bit of the bit map counts.
pub const HAS_WAIT: u32 = 1;

pub const HAS_LENGTH: u32 = 2;

pub const HAS_DELAY: u32 = 4;

pub const HAS_LOSS: u32 = 8;

pub const HAS_AMPLITUDE: u32 = 16;

pub const HAS_COUNT: u32 = 32;

pub const HAS_SEED: u32 = 64;

pub const INSTANT: u32 = 128;

// The bit of a map that counts unit.
pub fn bit(map: u32, unit: u32) -> u32
    requires { 0 < unit }
    ensures { result ≡ map / unit % 2 }
{
    map / unit % 2
}

// How many bits of each number below 16 stand, in four bits each, that of 0 lowest.
const COUNTS: u64 = 0x4332_3221_3221_2110;

// How many of four bits stand. A sum of the bits takes more steps, and the next record waits for this one's
// length.
fn count(n: u32) -> u32
    requires { n < 16 }
    ensures { result ≡ n % 2 + n / 2 % 2 + n / 4 % 2 + n / 8 % 2 }
{
    ((COUNTS >> (4 * n)) % 16) as u32
}

// How many bytes a record with this bit map has.
fn bytes(map: u32) -> usize
    ensures { result ≡ bytes_of map }
{
    let low = count(map % 16);
    let high = count(map / 16 % 8);
    1 + 2 * ((low + high) as usize)
}

// Some of these bits stand without any of those that one of them needs.
fn lacks(bits: u32, needed: u32) -> bool
    ensures { IsTrue result ↔ ¬ (Without bits needed ≡ 0) }
{
    bits != 0 && needed == 0
}

// Bit 5 or 6 stands without 4, or bit 7 without 1 or 2.
fn is_ill_formed(map: u32) -> bool
    ensures { IsTrue result ↔ ¬ (ill_formed map ≡ 0) }
{
    lacks(map / HAS_COUNT % 4, bit(map, HAS_AMPLITUDE))
        || lacks(bit(map, INSTANT), map / HAS_LENGTH % 4)
}

// The record that the slice starts with is whole and well formed. The map is read anew where it is: as the value of this
// Result it made a record take 11.9 ns for 11.2.
fn whole(s: &[u8]) -> Result<(), Refusal>
    ensures number { code_of result ≡ record_number s.now }
    ensures whole { OnOk result (bytes_of (map_of s.now) ≤ length s.now) }
{
    if s.is_empty() {
        return Err(Refusal::CutShort);
    }
    let map = u32::from(s[0]);
    if s.len() < bytes(map) {
        return Err(Refusal::CutShort);
    }
    if is_ill_formed(map) {
        return Err(Refusal::BitMap);
    }
    Ok(())
}

// A number of 16 bits, low byte first.
pub fn word(s: &[u8], at: usize) -> u32
    requires { at + 2 ≤ length s.now }
    ensures { result ≡ Word s.now at }
{
    u32::from(u16::from_le_bytes([s[at], s[at + 1]]))
}

// A refused record: its number, and nothing else.
fn refuse(fields: &mut [u32; 9], refusal: Refusal)
    ensures { fields.new ≡ number_of refusal ∷ replicate 8 0 }
{
    *fields = [refusal.number(), 0, 0, 0, 0, 0, 0, 0, 0];
}

// Reads the record that the slice starts with, and returns how many bytes it takes, 0 where it is refused. fields
// become its number, its bit map, and its wait, L, d, G, amplitude, count and seed: nine numbers, and not a struct, since
// C lends this array.
pub fn read(s: &[u8], fields: &mut [u32; 9]) -> usize
    ensures fields_after { fields.new ≡ Fields s.now }
    ensures upper_bound { (result ≤ length s.now) × (drop result s.now ≡ Rest s.now) }
{
    match whole(s) {
        Ok(()) => {
            let map = u32::from(s[0]);
            fill(words_of(s, map), map, fields);
            bytes(map)
        }
        Err(refusal) => {
            refuse(fields, refusal);
            0
        }
    }
}

// The same, and returns the part of the slice after the record: a form that document 01 names. What stands here stands in
// `read` too: as `read`, inlined, and a slice from its result on, a record took 12.0 ns for 11.2.
pub fn read_record<'a>(s: &'a [u8], fields: &mut [u32; 9]) -> &'a [u8]
    ensures fields_after { fields.new ≡ Fields s.now }
    ensures result_value { result.now ≡ Rest s.now }
{
    match whole(s) {
        Ok(()) => {
            let map = u32::from(s[0]);
            let n = bytes(map);
            fill(words_of(s, map), map, fields);
            &s[n..]
        }
        Err(refusal) => {
            refuse(fields, refusal);
            s
        }
    }
}
