// The console: answers each line of standard input by a line, as it comes, by calls on one voice, one
// junction and six strings.
// A read or a write that failed is said on standard error, and ends it.
#![tactic(auto)]

ghost use Rattle.std.specs.Prelude.{◌≡◌, length};

mod calls;
mod held;
mod lines;
mod scores;
mod shown;
mod six;
mod start;
mod tubes;
mod turn;
mod voices;

use held::Kept;
use input::more;
use lines::{Coming, ROOM};
use print::{Out, Printer};
use std::io::Stdin;

// Room for a line.
fn line_room() -> [u8; ROOM]
    ensures { 1048577 ≡ length result }
{
    [0; ROOM]
}

// Reads and answers until the input ends, a read fails, or standard output takes no more. A loop must end, so
// it ends after 2^64 - 1 reads too.
fn answer(from: Stdin, kept: &mut Kept, out: &mut Printer, room: &mut [u8; ROOM]) {
    let mut coming = Coming::new();
    for _ in 0..u64::MAX {
        match more(from, room, coming.held) {
            Ok(held) if coming.held < held => coming.came(kept, out, room, held),
            Ok(_) => {
                coming.last(kept, out, room);
                return;
            }
            Err(failed) => {
                out.out.complain(b"standard input", failed.code);
                return;
            }
        }
        if out.held.is_none() {
            return;
        }
    }
}

fn main(rt: HostRuntime) {
    // First: behind the others LLVM fills it with zeros twice.
    let mut room = line_room();
    let mut out = Printer::new(Out {
        to: rt.stdout(),
        told: rt.stderr(),
        program: b"console",
    });
    let mut kept = Kept::new();
    answer(rt.stdin(), &mut kept, &mut out, &mut room);
}
