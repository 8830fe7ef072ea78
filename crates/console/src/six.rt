// Lines on the six strings: a call on one of them, and the block of all, answered behind the line's name.
// Outputs are lent with 77 at each place, bytes with 4d.
use crate::calls::{call_of, opening_of, returned};
use crate::held::KeptStrings;
use crate::shown::{past, state};
use crate::start::counted;
use list::words::Call;
use packed::unpack;
use print::Printer;
use refusal::{Refusal, code};
use request::Request;
use request::kinds::Kind;
use request::lists::{bytes_room, read_list};
use strings::changes::{announce, ask, commit, instant, withdraw};
use strings::{open_string, pluck, set_loss};

// A call that has no count.
fn uncounted(answer: Result<(), Refusal>) -> Result<u32, Refusal> {
    answer?;
    Ok(0)
}

impl KeptStrings {
    // Six voices of a refused opening.
    pub fn new() -> KeptStrings {
        let mut heads = [[0u32; 27]; 6];
        let mut lines = [[0i32; 2112]; 6];
        strings::reset(&mut heads, &mut lines);
        KeptStrings { heads, lines }
    }

    // A call that lends nothing; the count of an instant change, and 0 of any other.
    #[tactic(auto, using(crate::proofs::SixRows::heads_of))]
    fn change(&mut self, string: u32, call: Call) -> Result<u32, Refusal> {
        let heads = &mut self.heads;
        let lines = &mut self.lines;
        match call {
            Call::Loss(g) => uncounted(set_loss(heads, string, g)),
            Call::Pluck(p) => uncounted(pluck(heads, string, p)),
            Call::Announce(to) => uncounted(announce(heads, string, to)),
            Call::Instant(to) => instant(heads, lines, string, to),
            Call::Ask(to) => uncounted(ask(heads, string, to)),
            Call::Commit => uncounted(commit(heads, string)),
            Call::Withdraw => uncounted(withdraw(heads, string)),
        }
    }

    // The bytes that a line lists, in place of a string, by a refusal too.
    fn load(&mut self, string: u32, l: Request) -> Result<(), Refusal> {
        let mut room = bytes_room();
        let bytes = read_list(l.list, &mut room).unwrap_or(&[]);
        strings::stores::load(&mut self.heads, &mut self.lines, string, bytes)
    }

    // A string stored. Compiled apart, as the voice's is.
    #[inline(never)]
    fn store(&self, out: &mut Printer, string: u32, l: Request) {
        let mut lent = [77u8; 32768];
        let bytes = &mut lent[..l.places];
        counted(
            out,
            strings::stores::store(&self.heads, &self.lines, string, bytes),
        );
        out.hexes(bytes);
    }

    // A string's state, or the last samples of its line; nothing where there is no such string.
    #[tactic(auto, using(crate::proofs::SixRows::place))]
    fn show(&self, out: &mut Printer, string: u32, l: Request) {
        if 5 < string {
            return;
        }
        let k = string as usize;
        let head = unpack(&self.heads[k]);
        match l.kind {
            Kind::Line => past(out, &self.lines[k], head.at, l.places),
            _ => state(out, head),
        }
    }

    // Makes the call of a line on a string, and answers it.
    pub fn call(&mut self, out: &mut Printer, string: u32, l: Request) {
        if let Some(call) = call_of(l) {
            returned(out, call, self.change(string, call));
            return;
        }
        match l.kind {
            Kind::Open => {
                let heads = &mut self.heads;
                let answer = open_string(heads, &mut self.lines, string, opening_of(l));
                out.number(code(answer));
            }
            Kind::Load => out.number(code(self.load(string, l))),
            Kind::Store => self.store(out, string, l),
            _ => self.show(out, string, l),
        }
    }

    // A block of all strings, of the samples that a line lists.
    pub fn mix(&mut self, out: &mut Printer, l: Request) {
        let mut room = [0i32; 4096];
        let input = read_list(l.list, &mut room).unwrap_or(&[]);
        let mut lent = [77i32; 32768];
        let output = &mut lent[..l.places];
        let answer = mix::mix(&mut self.heads, &mut self.lines, input, output);
        out.number(code(answer));
        out.samples(output);
    }
}
