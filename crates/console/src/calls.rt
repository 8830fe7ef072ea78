// The calls that a line asks for on a voice or on a string, and what they return, printed.
use list::words::Call;
use open::Opening;
use print::Printer;
use refusal::{Refusal, code};
use request::Request;
use request::kinds::Kind;
use values::number;
use voice::{Pluck, Tuning};

// What a line that opens a voice opens it with.
pub fn opening_of(l: Request) -> Opening {
    let [order, length, delay, loss, advance] = l.numbers;
    Opening {
        tuning: Tuning {
            order,
            length,
            delay,
        },
        loss,
        advance,
    }
}

// The call that a line asks for, if it lends nothing and opens nothing.
pub fn call_of(l: Request) -> Option<Call> {
    let [a, b, c, ..] = l.numbers;
    let to = opening_of(l).tuning;
    let pluck = Pluck {
        amplitude: a,
        left: b,
        noise: c,
    };
    Some(match l.kind {
        Kind::Loss => Call::Loss(a),
        Kind::Pluck => Call::Pluck(pluck),
        Kind::Announce => Call::Announce(to),
        Kind::Instant => Call::Instant(to),
        Kind::Ask => Call::Ask(to),
        Kind::Commit => Call::Commit,
        Kind::Withdraw => Call::Withdraw,
        _ => return None,
    })
}

// What such a call returned: its number, and the count of an instant change, 0 where it was refused.
pub fn returned(out: &mut Printer, call: Call, answer: Result<u32, Refusal>) {
    out.number(code(answer));
    if let Call::Instant(_) = call {
        out.number(number(answer));
    }
}
