// Recordings written and read, each called and printed behind the line's name.
// A file is lent with 4d at each place, samples with 77.
ghost use Rattle.std.specs.Prelude.{◌≡◌, ◌≤◌};
ghost use Rattle.print.specs.Printer.{place};

use print::Printer;
use refusal::code;
use request::Request;
use request::lists::{bytes_room, read_list};
use values::{recorded, size};

// The answer to a line that asks for a file.
#[inline(never)]
pub fn write(out: &mut Printer, l: Request)
    ensures within { place out.new.held ≤ 4097 }
    ensures out { out.new.out ≡ out.old.out }
{
    let [rate, ..] = l.numbers;
    let mut room = [0i32; 4096];
    let given = read_list(l.list, &mut room).unwrap_or(&[]);
    let mut lent = [77u8; 32768];
    let file = &mut lent[..l.places];
    let answer = wav::write(rate, given, file);
    out.number(code(answer));
    out.number(size(answer) as u64);
    out.hexes(file);
}

// The answer to a line that asks for the samples of a file.
#[inline(never)]
pub fn read(out: &mut Printer, l: Request)
    ensures within { place out.new.held ≤ 4097 }
    ensures out { out.new.out ≡ out.old.out }
{
    let mut room = bytes_room();
    let given = read_list(l.list, &mut room).unwrap_or(&[]);
    let mut lent = [77i32; 32768];
    let samples = &mut lent[..l.places];
    let answer = wav::read(given, samples);
    let w = recorded(answer);
    out.numbers(&[code(answer), w.rate]);
    out.number(w.count as u64);
    out.samples(samples);
}
