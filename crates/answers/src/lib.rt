// The routines that neither take nor open a voice: each is called, and what it returned is printed behind the
// line's name. The record's nine numbers are lent with 77 at each place.
#![tactic(auto)]

ghost use Rattle.std.specs.Prelude.{◌≡◌, ◌≤◌};
ghost use Rattle.print.specs.Printer.{place};

mod recordings;

use help::help;
use pitch::Parts;
use print::Printer;
use refusal::{Refusal, code};
use request::Request;
use request::kinds::Kind;
use request::lists::{bytes_room, read_list};
use thiran::Taps;
use values::{number, parts, taps};

fn coefficients(out: &mut Printer, l: Request)
    ensures within { place out.new.held ≤ 4097 }
    ensures out { out.new.out ≡ out.old.out }
{
    let [order, delay, ..] = l.numbers;
    let answer = thiran::coefficients(order, delay);
    let Taps { a1, a2, a3 } = taps(answer);
    out.number(code(answer));
    out.signed(a1);
    out.signed(a2);
    out.signed(a3);
}

// What a routine returned that gives one number, 0 where it is refused.
fn counted(out: &mut Printer, answer: Result<u32, Refusal>)
    ensures within { place out.new.held ≤ 4097 }
    ensures out { out.new.out ≡ out.old.out }
{
    out.numbers(&[code(answer), number(answer)]);
}

fn note(out: &mut Printer, l: Request)
    ensures within { place out.new.held ≤ 4097 }
    ensures out { out.new.out ≡ out.old.out }
{
    let [order, rate, key, ..] = l.numbers;
    let answer = pitch::note(order, rate, key);
    let Parts { length, delay } = parts(answer);
    out.numbers(&[code(answer), length, delay]);
}

fn draw(out: &mut Printer, l: Request)
    ensures within { place out.new.held ≤ 4097 }
    ensures out { out.new.out ≡ out.old.out }
{
    let [state, ..] = l.numbers;
    let r = noise::draw(state);
    out.signed(r.value);
    out.number(r.state);
}

// Reads a record from the list and prints its numbers, then how many bytes follow it. The caller lends the
// room: with its 349,526 zeros in scope the prover gives up on a slice of it.
fn print_record(out: &mut Printer, list: &[u8], room: &mut [u8])
    ensures within { place out.new.held ≤ 4097 }
    ensures out { out.new.out ≡ out.old.out }
{
    let given = read_list(list, room).unwrap_or(&[]);
    let mut fields = [77u32; 9];
    let rest = record::read_record(given, &mut fields);
    out.numbers(&fields);
    out.number(rest.len() as u64);
}

// Not inlined, like `gather` and the recordings: inlined, its room would enlarge the stack frame of every
// answer, and each page of the stack costs a first touch.
#[inline(never)]
fn record(out: &mut Printer, l: Request)
    ensures within { place out.new.held ≤ 4097 }
    ensures out { out.new.out ≡ out.old.out }
{
    print_record(out, l.list, &mut bytes_room());
}

#[inline(never)]
fn gather(out: &mut Printer, l: Request)
    ensures within { place out.new.held ≤ 4097 }
    ensures out { out.new.out ≡ out.old.out }
{
    let [start, ..] = l.numbers;
    let mut room = bytes_room();
    let given = read_list(l.list, &mut room).unwrap_or(&[]);
    out.number(octets::gather(given, start as usize));
}

// What a line that asks for one of them is answered by; a line that is wrong asks for nothing.
pub fn asked(out: &mut Printer, l: Request)
    ensures within { place out.old.held ≤ 4097 → place out.new.held ≤ 4097 }
    ensures out { out.new.out ≡ out.old.out }
{
    let [a, b, c, ..] = l.numbers;
    match l.kind {
        Kind::Coefficients => coefficients(out, l),
        Kind::Length => counted(out, allpass::effective_length(a, b, c)),
        Kind::Note => note(out, l),
        Kind::Draw => draw(out, l),
        Kind::Record => record(out, l),
        Kind::WavWrite => recordings::write(out, l),
        Kind::WavRead => recordings::read(out, l),
        Kind::Gather => gather(out, l),
        Kind::Least => counted(out, advance::least(a, b, c)),
        Kind::Help => help(out),
        _ => {}
    }
}
