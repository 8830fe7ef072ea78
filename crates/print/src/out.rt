// Where a program prints: standard output, and standard error for a read or a write that failed.
use std::io::{Cursor, Error, Print, Stderr, Stdout, Write};
use words::before;

// The program's name stands before what it says on standard error.
#[derive(Clone, Copy)]
pub struct Out {
    pub to: Stdout,
    pub told: Stderr,
    pub program: &'static [u8],
}

// The system's number of an error.
pub fn code(error: Error) -> i32 {
    error.raw_os_error().unwrap_or(0)
}

impl Out {
    // Writes a part of what is said on standard error, and passes over it where that fails.
    fn say(&self, s: &[u8]) {
        let _ = self.told.write_all(s);
    }

    // The system's words for an error. std prints its number behind them, in brackets, and the output has none.
    fn reason(&self, code: i32) {
        let mut text = [0u8; 320];
        let mut room = Cursor::new(&mut text[..]);
        let _ = write!(room, "{}", Error::from_raw_os_error(code));
        let n = before(&text, b'(');
        if 0 < n {
            self.say(&text[..n - 1]);
        }
    }

    // Writes a line to standard error: the program's name, what failed, and the system's words for why.
    pub fn complain(&self, what: &[u8], code: i32) {
        self.say(self.program);
        self.say(b": ");
        self.say(what);
        self.say(b": ");
        self.reason(code);
        self.say(b"\n");
    }
}
