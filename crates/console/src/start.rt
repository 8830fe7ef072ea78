// How an answer starts: the line's name, or `error`, and the numbers of a call.
// What follows is printed by the routine that was called.
use help::error;
use print::Printer;
use refusal::{Refusal, code};
use request::Request;
use request::kinds::Kind;
use request::next::split_word;
use values::size;

// The name of a line that is right; `error`, the number and what was expected of one that is wrong.
pub fn start(out: &mut Printer, s: &[u8], index: u64, l: Request) {
    if l.kind == Kind::Error {
        error(out, s, index);
        return;
    }
    if let Some(string) = l.string {
        out.bytes(b"string");
        out.number(string);
        out.bytes(b" ");
        out.bytes(l.kind.name());
        return;
    }
    let (name, _) = split_word(s);
    out.bytes(name);
}

// What a call returned that has a count beside its number, 0 where it was refused.
pub fn counted(out: &mut Printer, answer: Result<usize, Refusal>) {
    out.number(code(answer));
    out.number(size(answer) as u64);
}
