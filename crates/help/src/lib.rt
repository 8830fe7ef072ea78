// What is said of the console's calls: in the answer to a line that is wrong, and in the answer to `help`.
// Contracts cite specs/Said.antt.
#![tactic(auto)]

ghost use Rattle.print.specs.Printer.{Prints, PrintsEach};
ghost use Rattle.request.specs.Kinds.{number_of};
ghost use Rattle.help.specs.Said.{Said, Wrong, Error, Listed, up_to};

use print::Printer;
use request::kinds::{CALLS, Kind, named};
use request::next::split_word;

// What a kind's call takes, behind a text.
fn said(out: &mut Printer, text: &[u8], kind: Kind)
    ensures { Prints (Said text.now (number_of kind)) out.old out.new }
{
    out.bytes(text);
    out.bytes(kind.row());
}

// The answer to a wrong line: `error`, its number, and what its call takes.
pub fn wrong(out: &mut Printer, index: u64, kind: Kind)
    ensures { Prints (Wrong index (number_of kind)) out.old out.new }
{
    out.bytes(b"error");
    out.number(index);
    said(out, b" ", kind);
}

// The answer to a wrong line, by the name that it starts with.
pub fn error(out: &mut Printer, s: &[u8], index: u64)
    ensures { Prints (Error s.now index) out.old out.new }
{
    let (name, _) = split_word(s);
    wrong(out, index, named(name));
}

// One of the calls, among others.
fn listed(out: &mut Printer, kind: Kind)
    ensures { Prints (Listed (number_of kind)) out.old out.new }
{
    let between: &[u8] = if kind == Kind::Open { b" " } else { b"; " };
    said(out, between, kind);
}

// What each of the calls takes, one after the other.
pub fn help(out: &mut Printer)
    ensures { PrintsEach Listed (up_to 31) out.old out.new }
{
    for kind in CALLS {
        listed(out, kind);
    }
}
