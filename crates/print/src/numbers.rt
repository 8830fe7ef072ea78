// Numbers and bytes, each behind a blank but for `line`.
// Not by `write!`: it hands a text on in parts, and Printed says that each stands whole where room was made.
// Not one method over a trait: each has a clause of its own, and one for all would be no plainer.
ghost use Rattle.std.specs.Prelude.{ℕ, ℤ};
ghost use Rattle.print.specs.Printed.{Number, Signed, Hex, Line};
ghost use Rattle.print.specs.Printer.{Prints, PrintsEach};

use crate::Printer;

impl Printer {
    // A number, behind a blank.
    pub fn number<N: Into<u64>>(&mut self, n: N)
        ensures { (m : ℕ) × N.converts n m × Prints (Number m) self.old self.new }
    {
        let n = n.into();
        self.bytes(b" ");
        if let Some(at) = self.held {
            self.held = Some(write::number(&mut self.buffer, at, n));
        }
    }

    // A number with a sign, behind a blank.
    pub fn signed<X: Into<i64>>(&mut self, x: X)
        ensures { (y : ℤ) × X.converts x y × Prints (Signed y) self.old self.new }
    {
        let x = x.into();
        self.bytes(b" ");
        if let Some(at) = self.held {
            self.held = Some(write::signed(&mut self.buffer, at, x));
        }
    }

    // A number with a sign, on a line.
    pub fn line<X: Into<i64>>(&mut self, x: X)
        ensures { (y : ℤ) × X.converts x y × Prints (Line y) self.old self.new }
    {
        let x = x.into();
        self.room();
        if let Some(at) = self.held {
            let last = write::signed(&mut self.buffer, at, x);
            self.held = Some(write::bytes(&mut self.buffer, last, b"\n"));
        }
    }

    // A byte in two hexadecimal digits, behind a blank.
    pub fn hex(&mut self, b: u8)
        ensures { Prints (Hex b) self.old self.new }
    {
        self.bytes(b" ");
        if let Some(at) = self.held {
            self.held = Some(write::hex(&mut self.buffer, at, b));
        }
    }
}

// Lists of them, one after the other.
#[tactic(auto, using(crate::proofs::Printers::each_none, crate::proofs::Printers::each_step))]
impl Printer {
    // Each of some numbers.
    pub fn numbers(&mut self, numbers: &[u32])
        ensures { PrintsEach Number numbers.now self.old self.new }
    {
        for &n in numbers {
            self.number(n);
        }
    }

    // Each of some samples.
    pub fn samples(&mut self, samples: &[i32])
        ensures { PrintsEach Signed samples.now self.old self.new }
    {
        for &x in samples {
            self.signed(x);
        }
    }

    // Each of some bytes.
    pub fn hexes(&mut self, bytes: &[u8])
        ensures { PrintsEach Hex bytes.now self.old self.new }
    {
        for &b in bytes {
            self.hex(b);
        }
    }
}
