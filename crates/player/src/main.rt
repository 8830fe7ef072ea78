// Plays a score: reads its bytes from standard input, the first 32,768 of them, and prints each sample that
// the run wrote on a line, then `end`, number, place, samples. A read or a write that failed is said on standard
// error; nothing is played where the read failed.
#![tactic(auto)]

use input::full;
use print::{Out, Printer};
use refusal::code;
use score::Played;

// The last line: `end`, number, place, samples.
fn end(out: &mut Printer, r: Played) {
    out.bytes(b"end");
    out.number(code(r.answer));
    out.number(r.place as u64);
    out.number(r.written as u64);
    out.bytes(b"\n");
}

// Runs a score, and prints what the run returned and wrote.
fn play(out: &mut Printer, score: &[u8]) {
    let mut output = [0i32; 16384];
    let r = score::run(score, &mut output);
    for x in output.iter().take(r.written) {
        out.line(*x);
    }
    end(out, r);
    out.flush();
}

fn main(rt: HostRuntime) {
    let mut out = Printer::new(Out {
        to: rt.stdout(),
        told: rt.stderr(),
        program: b"player",
    });
    let mut bytes = [0u8; 32768];
    match full(rt.stdin(), &mut bytes) {
        Ok(held) => play(&mut out, &bytes[..held]),
        Err(failed) => out.out.complain(b"standard input", failed.code),
    }
}
