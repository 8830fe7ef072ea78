// What a program prints: gathered in a buffer, which goes to standard output when little room is left in it.
// Each method that appends says what the buffer holds afterwards (specs/Printed.antt, specs/Printer.antt).
#![tactic(auto)]

ghost use Rattle.std.specs.Prelude.{◌≡◌};
ghost use Rattle.print.specs.Printed.{Went, MadeRoom, Printed};
ghost use Rattle.print.specs.Printer.{place, Prints};

mod numbers;
mod out;

pub use out::{Out, code};
use std::io::Print;

// held is how many bytes the buffer holds; None once standard output took no more.
// An array and a length, and no Vec: the programs take no heap. No invariant bounds held: `flush` answers for
// a place past the buffer too (must-fail/place_kept.edit).
#[derive(Drop)]
pub struct Printer {
    pub out: Out,
    pub buffer: [u8; 4096],
    pub held: Option<usize>,
}

impl Printer {
    // Nothing is printed yet.
    pub fn new(out: Out) -> Printer
        ensures { (result.out ≡ out) × (place result.held ≡ 0) }
    {
        Printer {
            out,
            buffer: [0; 4096],
            held: Some(0),
        }
    }

    // Writes what the buffer holds, and returns where the next text goes; a write that fails is said on
    // standard error.
    fn written(&self) -> Option<usize>
        ensures { Went (place result) }
    {
        let Some(s) = self.buffer.get(..self.held?) else {
            return None;
        };
        match self.out.to.write_all(s) {
            Ok(()) => Some(0),
            Err(e) => {
                self.out.complain(b"standard output", code(e));
                None
            }
        }
    }

    // Writes what the buffer holds.
    pub fn flush(&mut self)
        ensures { Prints (λ before _ after r. (after ≡ before) × Went r) self.old self.new }
    {
        self.held = self.written();
    }

    // Makes room for 64 bytes at least.
    fn room(&mut self)
        ensures { Prints (λ before at after r. (after ≡ before) × MadeRoom at r) self.old self.new }
    {
        match self.held {
            Some(n) if n <= 4_032 => {}
            _ => self.flush(),
        }
    }

    // A text of at most 64 bytes.
    pub fn bytes(&mut self, s: &[u8])
        ensures { Prints (Printed s.now) self.old self.new }
    {
        self.room();
        if let Some(at) = self.held {
            self.held = Some(write::bytes(&mut self.buffer, at, s));
        }
    }
}
