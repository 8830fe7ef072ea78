// One line of the text: read, called and answered.
use crate::held::{Kept, KeptJunction, KeptStrings, KeptVoice};
use crate::start::start;
use print::Printer;
use request::kinds::Kind;
use request::{Request, parse};
use words::pieces::ahead;

impl Kept {
    // Before they are opened, the voice, the junction and the strings are those of a refused opening.
    pub fn new() -> Kept {
        Kept {
            voice: KeptVoice::new(),
            junction: KeptJunction::new(),
            strings: KeptStrings::new(),
        }
    }

    // Makes the call of a line that is not empty, and answers it.
    fn call(&mut self, out: &mut Printer, l: Request) {
        if let Some(string) = l.string {
            self.strings.call(out, string, l);
            return;
        }
        match l.kind {
            Kind::Mix => self.strings.mix(out, l),
            Kind::Junction | Kind::Move | Kind::Tube => self.junction.call(out, l),
            _ => self.voice.call(out, l),
        }
    }

    // Reads a line, which has no line feed, up to a comment, makes its call and answers it.
    pub fn answer(&mut self, out: &mut Printer, s: &[u8], index: u64) {
        let line = ahead(s, b'#');
        let l = parse(line);
        if l.kind != Kind::Empty {
            start(out, line, index, l);
            self.call(out, l);
            out.bytes(b"\n");
        }
    }
}
