// The merged record of a record: its nine numbers, and their bytes.
ghost use Rattle.std.specs.Prelude.{◌≡◌, ℕ, ◌+◌, ◌*◌, ◌/◌, ◌%◌, ◌≤◌, ◌<◌, length, get_or};
ghost use Rattle.octets.specs.Octets.{laid};
ghost use Rattle.record.specs.Record.{bytes as Bytes};
ghost use Rattle.follow.specs.Follow.{count_of};
ghost use Rattle.timeline.specs.Merged.{changes as Changes, map_for, merge_record, field_bytes, record_bytes};

use follow::changes::chosen;
use octets::put;
use outline::Span;
use record::{
    AMPLITUDE, COUNT, HAS_AMPLITUDE, HAS_COUNT, HAS_DELAY, HAS_LENGTH, HAS_LOSS, HAS_SEED,
    HAS_WAIT, INSTANT, LOSS, MAP, SEED, bit,
};

// 1 where a record changes L or d.
fn changes(r: &[u32; 9]) -> u32
    ensures { result ≡ Changes r.now }
{
    (bit(r[MAP], HAS_LENGTH) + bit(r[MAP], HAS_DELAY)).min(1)
}

// The bit map of a merged record.
fn merged_map(wait: u32, r: &[u32; 9]) -> u32
    ensures { result ≡ map_for wait r.now }
{
    let map = r[MAP];
    let change = changes(r);
    let low = wait.min(1) + 6 * change + 8 * bit(map, HAS_LOSS);
    low + 48 * bit(map, HAS_AMPLITUDE) + 64 * bit(map, HAS_SEED) + 128 * bit(map, INSTANT)
}

// The merged record of r after a wait, with the L and d that its own score would use.
pub fn merge_record(wait: u32, to: Span, r: &[u32; 9], q: &mut [u32; 9])
    ensures { (m : ℕ) → q.new ≡ merge_record wait (record {
      moment = m;
      own = r.now;
      L = to.length;
      d = to.delay;
    }) }
{
    let map = r[MAP];
    let change = changes(r);
    let count = chosen(bit(map, HAS_COUNT), r[COUNT], 100);
    *q = [
        0,
        merged_map(wait, r),
        wait,
        chosen(change, to.length, 0),
        chosen(change, to.delay, 0),
        r[LOSS],
        r[AMPLITUDE],
        chosen(bit(map, HAS_AMPLITUDE), count, 0),
        r[SEED],
    ];
}

// How many bytes a record with this bit map has.
pub fn size(map: u32) -> usize
    ensures { result ≡ Bytes map }
{
    let low = bit(map, HAS_WAIT) + bit(map, HAS_LENGTH) + bit(map, HAS_DELAY) + bit(map, HAS_LOSS);
    let high = bit(map, HAS_AMPLITUDE) + bit(map, HAS_COUNT) + bit(map, HAS_SEED);
    1 + 2 * ((low + high) as usize)
}

// Puts a field where its bit stands, and returns the place behind it.
fn put_field(out: &mut [u8], at: usize, bit: u32, n: u32) -> usize
    requires { (bit ≤ 1) × (at + 2 * bit ≤ length out.old) }
    ensures { (out.new ≡ laid out.old at (field_bytes bit n)) × (result ≡ at + 2 * bit) }
{
    if bit == 0 {
        return at;
    }
    put(out, at, 2, n as u64);
    at + 2
}

// Puts a record: its bit map, and the fields whose bit stands.
pub fn put_record(out: &mut [u8], start: usize, q: &[u32; 9])
    requires { (get_or q.now 1 0 < 256) × (start + Bytes (get_or q.now 1 0) ≤ length out.old) }
    ensures { out.new ≡ laid out.old start (record_bytes q.now) }
{
    let map = q[MAP];
    put(out, start, 1, map as u64);
    let mut at = start + 1;
    let mut unit: u32 = 1;
    for k in 0..7 {
        at = put_field(out, at, bit(map, unit), q[k + 2]);
        unit *= 2;
    }
}
