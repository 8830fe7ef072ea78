// A line on the voice that the console keeps: its call is made, and answered behind the line's name.
// A block's output is lent with 77 at each place, the bytes of a stored voice with 4d.
use crate::calls::{call_of, opening_of, returned};
use crate::held::KeptVoice;
use crate::scores::{merge, panel, run};
use crate::shown::{past, state};
use crate::start::counted;
use answers::asked;
use list::words::Call;
use open::Opening;
use print::Printer;
use refusal::{Refusal, code};
use request::Request;
use request::kinds::Kind;
use request::lists::{bytes_room, read_list};
use values::head_after;

impl KeptVoice {
    // The voice of a refused opening.
    pub fn new() -> KeptVoice {
        let v = open::refusal_voice();
        let line = v.line;
        KeptVoice { line, head: v.head }
    }

    // Opens a voice in place of the one that was kept, also where Open refuses.
    fn open(&mut self, opening: Opening) -> Result<(), Refusal> {
        let opened = open::open(opening);
        let line = opened.voice.line;
        self.line = line;
        self.head = opened.voice.head;
        opened.answer
    }

    // A call that lends nothing; the count of an instant change, and 0 of any other.
    fn change(&mut self, call: Call) -> Result<u32, Refusal> {
        let changed = list::one::call(&self.line, self.head, call)?;
        self.head = changed.head;
        Ok(changed.count)
    }

    // A block over the samples that a line lists.
    fn block(&mut self, out: &mut Printer, l: Request) {
        let mut room = [0i32; 4096];
        let input = read_list(l.list, &mut room).unwrap_or(&[]);
        let mut lent = [77i32; 32768];
        let output = &mut lent[..l.places];
        let answer = block::block(&mut self.line, self.head, input, output);
        self.head = head_after(self.head, answer);
        out.number(code(answer));
        out.samples(output);
    }

    // A stored voice in place of the one that was kept, by a refusal too.
    fn load(&mut self, l: Request) -> Result<(), Refusal> {
        let mut room = bytes_room();
        let bytes = read_list(l.list, &mut room).unwrap_or(&[]);
        let loaded = load::load(bytes, &mut self.line);
        self.head = loaded.head;
        loaded.answer
    }

    // The answer to a line that asks to store the voice. Compiled apart: compiled in, its room made the stack of every line's
    // answer larger.
    #[inline(never)]
    fn store(&self, out: &mut Printer, l: Request) {
        let mut lent = [77u8; 32768];
        let bytes = &mut lent[..l.places];
        counted(out, store::store(&self.line, self.head, bytes));
        out.hexes(bytes);
    }

    // Makes the call of a line that is not empty on the voice, and answers it.
    pub fn call(&mut self, out: &mut Printer, l: Request) {
        if let Some(call) = call_of(l) {
            returned(out, call, self.change(call));
            return;
        }
        match l.kind {
            Kind::Open => out.number(code(self.open(opening_of(l)))),
            Kind::Block => self.block(out, l),
            Kind::Load => out.number(code(self.load(l))),
            Kind::State => state(out, self.head),
            Kind::Line => past(out, &self.line, self.head.at, l.places),
            Kind::Store => self.store(out, l),
            Kind::Panel => panel(out, l),
            Kind::Run => run(out, l),
            Kind::Merge => merge(out, l),
            _ => asked(out, l),
        }
    }
}
