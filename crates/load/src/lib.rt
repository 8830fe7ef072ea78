// Loading a stored voice, and the panel that reads part of one: document 02, L10. Both run the whole check first, and
// write nothing before it. Contracts cite crate form.
#![tactic(auto)]

ghost use Rattle.std.specs.Prelude.{◌≡◌, ℕ, ◌+◌, ◌*◌, ◌^◌, ◌≤◌, ◌<◌, pos, length, get_or, set};
ghost use Rattle.refusal.specs.Numbers.{code_of};
ghost use Rattle.form.specs.Loads.{loads};
ghost use Rattle.form.specs.Parts.{value};
ghost use Rattle.load.specs.Words.{read as Read};
ghost use Rattle.load.specs.Loaded.{loaded, shown, Loads, Shows};

use build::head_of;
use limits::{head_in, line_in};
use octets::{four, signed};
use refusal::Refusal;
use voice::Head;
use words::{map_of, places, words_of};

mod build;
mod limits;
mod words;

// What the panel shows: length, delay and loss.
#[derive(Clone, Copy)]
pub struct Shown {
    pub length: u32,
    pub delay: u32,
    pub loss: u32,
}

// What a load returns: not a Result of a head, since a refused one has a voice too.
#[derive(Clone, Copy)]
pub struct Loaded {
    pub answer: Result<(), Refusal>,
    pub head: Head,
}

// What bytes are refused by: 22, 23.
fn tested(s: &[u8]) -> Result<(), Refusal>
    ensures { code_of result ≡ (loads s.now).refusal }
{
    let m = map_of(s);
    let p = places(m);
    if s.len() != p.end {
        return Err(Refusal::StoredLength);
    }
    if !head_in(words_of(s, m)) {
        return Err(Refusal::StoredPart);
    }
    if !line_in(s, p.line, m / 128 % 2) {
        return Err(Refusal::StoredPart);
    }
    Ok(())
}

// Puts the number whose two's complement is w at place i.
fn write(line: &mut [i32], i: usize, w: u64)
    requires { (i < length line.old) × (w < 2 ^ 32) }
    ensures { line.new ≡ set line.old i (value w) }
{
    let v = signed(w, 2_147_483_648);
    line[i] = v.n as i32;
}

// Fills the line with the numbers that start at a place.
fn fill(s: &[u8], at: usize, line: &mut [i32])
    requires { (at + 8448 ≤ length s.now) × (length line.old ≡ 2112) }
    ensures { (length line.new ≡ 2112) × ((k : ℕ) → k < 2112 → get_or line.new k (pos 0)
        ≡ value (Read s.now (at + 4 * k) 1 0)) }
{
    for i in 0..2_112 {
        write(line, i, four(s, at + 4 * i));
    }
}

// Fills the line: with its part where there is 1, else with zeros.
fn lay(s: &[u8], at: usize, there: usize, line: &mut [i32; 2112])
    requires { there ≡ 1 → at + 8448 ≤ length s.now }
    ensures { (length line.new ≡ 2112) × ((k : ℕ) → k < 2112 → get_or line.new k (pos 0)
        ≡ value (Read s.now (at + 4 * k) there 0)) }
{
    if there == 1 {
        fill(s, at, line);
        return;
    }
    *line = [0; 2112];
}

// Loads a voice into the lent line and the head that it returns; by a refusal Open's refusal voice, line and all.
pub fn load(s: &[u8], line: &mut [i32; 2112]) -> Loaded
    ensures { Loads s.now (loaded result) line.new }
{
    let answer = tested(s);
    if answer.is_err() {
        let v = open::refusal_voice();
        let silence = v.line;
        *line = silence;
        return Loaded {
            answer,
            head: v.head,
        };
    }
    let m = map_of(s);
    lay(s, places(m).line, m / 128 % 2, line);
    Loaded {
        answer,
        head: head_of(words_of(s, m)),
    }
}

// What the panel shows of a stored voice.
pub fn panel(s: &[u8]) -> Result<Shown, Refusal>
    ensures { Shows s.now (shown result) }
{
    tested(s)?;
    let w = words_of(s, map_of(s));
    Ok(Shown {
        length: w.tuning.length,
        delay: w.tuning.delay,
        loss: w.loss,
    })
}
