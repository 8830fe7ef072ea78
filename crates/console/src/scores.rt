// Scores that a line lists, run and merged, and a stored voice on the panel, each called and printed behind the
// line's name. A run's output is lent with 77 at each place, the bytes of a merge with 4d.
use crate::start::counted;
use load::Shown;
use print::Printer;
use refusal::code;
use request::Request;
use request::lists::{bytes_room, read_list};
use request::pairs::two_lists;

// The answer to a line that asks for a run.
pub fn run(out: &mut Printer, l: Request) {
    let mut room = bytes_room();
    let score = read_list(l.list, &mut room).unwrap_or(&[]);
    let mut lent = [77i32; 32768];
    let output = &mut lent[..l.places];
    let r = score::run(score, output);
    out.number(code(r.answer));
    out.number(r.place as u64);
    out.number(r.written as u64);
    out.samples(output);
}

// The answer to a line that asks for a merge.
pub fn merge(out: &mut Printer, l: Request) {
    let (first, second) = two_lists(l.list).unwrap_or((&[], &[]));
    let mut first_room = bytes_room();
    let one = read_list(first, &mut first_room).unwrap_or(&[]);
    let mut second_room = bytes_room();
    let other = read_list(second, &mut second_room).unwrap_or(&[]);
    let mut lent = [77u8; 32768];
    let bytes = &mut lent[..l.places];
    counted(out, merge::merge(one, other, bytes));
    out.hexes(bytes);
}

// The answer to a line that asks for the panel.
pub fn panel(out: &mut Printer, l: Request) {
    let mut room = bytes_room();
    let answer = load::panel(read_list(l.list, &mut room).unwrap_or(&[]));
    let Shown {
        length,
        delay,
        loss,
    } = values::panel(answer);
    out.numbers(&[code(answer), length, delay, loss]);
}
