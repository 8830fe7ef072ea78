// The tube junction that the console keeps: opened, moved, and run a sample at a time.
ghost use Rattle.tube.specs.Valid.{Valid as Joined};

use crate::held::KeptJunction;
use print::Printer;
use refusal::{Refusal, code};
use request::Request;
use request::kinds::Kind;
use request::pairs::two_samples;
use tube::Junction;
use tube::memory::{pack, unpack};
use values::outputs;

impl KeptJunction {
    // The junction of a refused opening.
    pub fn new() -> KeptJunction {
        let words = pack(tube::open::open(0, 0, 0, 0).junction);
        KeptJunction { words }
    }

    fn keep(&mut self, junction: Junction)
        requires { Joined junction }
    {
        let words = pack(junction);
        self.words = words;
    }

    // Opens a junction in place of the one that was kept, by a refusal too.
    fn open(&mut self, l: Request) -> Result<(), Refusal> {
        let [left, right, d, advance, _] = l.numbers;
        let opened = tube::open::open(left, right, d, advance);
        self.keep(opened.junction);
        opened.answer
    }

    // Announces a new delay.
    fn start_move(&mut self, d: u32) -> Result<(), Refusal> {
        let moved = tube::moves::start_move(unpack(&self.words), d)?;
        self.keep(moved);
        Ok(())
    }

    // One sample from each side, and what goes to the right and to the left, 0 where they are refused.
    fn sample(&mut self, out: &mut Printer, l: Request) {
        let (a, b) = two_samples(l.list).unwrap_or((0, 0));
        let junction = unpack(&self.words);
        let answer = tube::sample::sample(junction, a, b);
        if let Ok(step) = answer {
            self.keep(step.junction);
        }
        out.number(code(answer));
        out.samples(&outputs(junction, answer));
    }

    // The answer to a line that asks for a call on the junction.
    pub fn call(&mut self, out: &mut Printer, l: Request) {
        match l.kind {
            Kind::Junction => out.number(code(self.open(l))),
            Kind::Move => out.number(code(self.start_move(l.numbers[0]))),
            _ => self.sample(out, l),
        }
    }
}
