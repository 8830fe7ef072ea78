// The numbers that a stored form holds, as words of 32 bits: those of the parts that its bit map has, and those of
// Open's refusal voice for the others. Missing bytes count as 0, so that any bytes have such numbers.
ghost use Rattle.std.specs.Prelude.{◌≡◌, ◌+◌, ◌<◌, ◌≤◌, get_or};
ghost use Rattle.form.specs.Parts.{held_in};
ghost use Rattle.load.specs.Words.{read as Read, Placed, ChangeRead, numbers_of};

use octets::part;
use voice::{Pluck, Tuning};

// Where each part starts behind the tuning's, and where the form ends.
#[derive(Clone, Copy)]
pub struct Offsets {
    pub loss: usize,
    pub advance: usize,
    pub last: usize,
    pub state: usize,
    pub change: usize,
    pub pluck: usize,
    pub line: usize,
    pub end: usize,
}

// Three numbers, each in two's complement where it is signed.
#[derive(Clone, Copy)]
pub struct Three {
    pub a: u32,
    pub b: u32,
    pub c: u32,
}

// A waiting change. Its kind is a word, and no enum, since any bytes have such numbers.
#[derive(Clone, Copy)]
pub struct Change {
    pub kind: u32,
    pub tuning: Tuning,
    pub taken: u32,
    pub state: Three,
}

#[derive(Clone, Copy)]
pub struct Words {
    pub tuning: Tuning,
    pub loss: u32,
    pub advance: u32,
    pub last: u32,
    pub state: Three,
    pub change: Change,
    pub pluck: Pluck,
}

// The bit map: the first byte, 0 where there is none.
pub fn map_of(s: &[u8]) -> usize
    ensures { (result ≡ get_or s.now 0 0) × (result < 256) }
{
    part(s, 0, 1) as usize
}

// The places of the parts that a bit map has.
pub fn places(m: usize) -> Offsets
    ensures { Placed m result }
{
    let loss = 1 + 12 * (m % 2);
    let advance = loss + 4 * (m / 2 % 2);
    let last = advance + 4 * (m / 4 % 2);
    let state = last + 4 * (m / 8 % 2);
    let change = state + 12 * (m / 16 % 2);
    let pluck = change + 32 * (m / 32 % 2);
    let line = pluck + 12 * (m / 64 % 2);
    Offsets {
        loss: loss,
        advance: advance,
        last: last,
        state: state,
        change: change,
        pluck: pluck,
        line: line,
        end: line + 8_448 * (m / 128 % 2),
    }
}

// The number at a place where there is 1, else another.
fn read(s: &[u8], at: usize, there: usize, other: u32) -> u32
    ensures { result ≡ Read s.now at there other }
{
    if there == 1 {
        return part(s, at, 4) as u32;
    }
    other
}

// Three numbers from a place on, where there is 1, else others.
fn read_three(s: &[u8], at: usize, there: usize, others: Three) -> Three
    requires { at ≤ 100 }
    ensures { (result.a ≡ Read s.now at there others.a) × (result.b ≡ Read s.now (at + 4) there others.b)
        × (result.c ≡ Read s.now (at + 8) there others.c) }
{
    Three {
        a: read(s, at, there, others.a),
        b: read(s, at + 4, there, others.b),
        c: read(s, at + 8, there, others.c),
    }
}

// A tuning, likewise.
fn read_tuning(s: &[u8], at: usize, there: usize, others: Three) -> Tuning
    requires { at ≤ 100 }
    ensures { (result.order ≡ Read s.now at there others.a) × (result.length ≡ Read s.now (at + 4) there others.b)
        × (result.delay ≡ Read s.now (at + 8) there others.c) }
{
    let t = read_three(s, at, there, others);
    Tuning {
        order: t.a,
        length: t.b,
        delay: t.c,
    }
}

const ZEROS: Three = Three { a: 0, b: 0, c: 0 };

fn change_of(s: &[u8], at: usize, there: usize) -> Change
    requires { at ≤ 80 }
    ensures { ChangeRead s.now at there result }
{
    Change {
        kind: read(s, at, there, 0),
        tuning: read_tuning(s, at + 4, there, ZEROS),
        taken: read(s, at + 16, there, 0),
        state: read_three(s, at + 20, there, ZEROS),
    }
}

// The numbers of all parts but the line.
pub fn words_of(s: &[u8], m: usize) -> Words
    requires { m ≡ get_or s.now 0 0 }
    ensures { numbers_of result (held_in s.now).line ≡ held_in s.now }
{
    let p = places(m);
    let refused = Three {
        a: 1,
        b: 1,
        c: 4_096,
    };
    let tuning = read_tuning(s, 1, m % 2, refused);
    let loss = read(s, p.loss, m / 2 % 2, 0);
    let advance = read(s, p.advance, m / 4 % 2, 0);
    let last = read(s, p.last, m / 8 % 2, 0);
    let state = read_three(s, p.state, m / 16 % 2, ZEROS);
    let change = change_of(s, p.change, m / 32 % 2);
    let k = read_three(s, p.pluck, m / 64 % 2, ZEROS);
    Words {
        tuning,
        loss,
        advance,
        last,
        state,
        change,
        pluck: Pluck {
            amplitude: k.a,
            left: k.b,
            noise: k.c,
        },
    }
}
