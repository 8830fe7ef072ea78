// A line, read: its name, its numbers and its list.
ghost use Rattle.std.specs.Prelude.{IfSome};
ghost use Rattle.request.specs.InLine.{InLine};

use crate::kinds::{Kind, lent, named, on_string, wanted};
use crate::lists::{listed, numbers};
use crate::next::{next, split_word};
use crate::{Request, plain};

// A call, whose name is read, with what follows the name; none where that is wrong.
fn called<'a>(kind: Kind, string: Option<u32>, s: &'a [u8]) -> Option<Request<'a>>
    ensures { IfSome result (λ l. InLine s.now l) }
{
    let mut n = [0u32; 5];
    let list = numbers(s, &mut n[..wanted(kind)])?;
    let places = lent(kind, n[0], n[1])?;
    if listed(kind, list) {
        Some(Request {
            kind,
            string,
            places,
            list,
            numbers: n,
        })
    } else {
        None
    }
}

// A call on a string, whose number comes first.
fn on<'a>(s: &'a [u8]) -> Option<Request<'a>>
    ensures { IfSome result (λ l. InLine s.now l) }
{
    let (string, call) = next(s)?;
    let (name, rest) = split_word(call);
    let kind = named(name);
    if on_string(kind, string) {
        called(kind, Some(string), rest)
    } else {
        None
    }
}

// What a line asks, whose comment is cut off.
pub fn parse<'a>(s: &'a [u8]) -> Request<'a>
    ensures { InLine s.now result }
{
    let (name, rest) = split_word(s);
    if name.is_empty() {
        return plain(Kind::Empty);
    }
    let asked = match named(name) {
        Kind::String => on(rest),
        kind => called(kind, None, rest),
    };
    asked.unwrap_or(plain(Kind::Error))
}
