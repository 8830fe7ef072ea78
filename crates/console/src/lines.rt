// The lines that came: those that a line feed ends are answered, and what stands behind the last of them is
// kept. A line that fills the room is too long, and is passed over up to its line feed.
ghost use Rattle.std.specs.Prelude.{◌≤◌, length};

use crate::held::Kept;
use help::wrong;
use input::front;
use print::Printer;
use request::kinds::Kind;
use words::before;
use words::pieces::bare;

// The bytes that a line may have and one more, its line feed.
pub const ROOM: usize = 1_048_577;

// The number of the line that comes next, how many of its bytes the room holds, and whether it is too long.
// A flag and no Option: a line that is too long has the others too.
#[derive(Drop)]
pub struct Coming {
    pub index: u64,
    pub held: usize,
    pub long: bool,
    ghost fits: { held ≤ 1048577 },
}

impl Coming {
    // The first line.
    pub fn new() -> Coming {
        Coming {
            index: 1,
            held: 0,
            long: false,
        }
    }

    // Answers each line of a text that a line feed ends, as long as standard output takes the answers, and
    // returns what stands behind the last of them.
    fn whole<'a>(&mut self, kept: &mut Kept, out: &mut Printer, s: &'a [u8]) -> &'a [u8]
        ensures { length result.now ≤ length s.now }
    {
        let mut rest = s;
        while out.held.is_some() {
            let n = before(rest, b'\n');
            if n == rest.len() {
                break;
            }
            if !self.long {
                kept.answer(out, bare(&rest[..n]), self.index);
            }
            self.index = self.index.saturating_add(1);
            self.long = false;
            rest = &rest[n + 1..];
        }
        rest
    }

    // Answers what came, where the room now holds so many bytes, brings what is left to the room's front, and
    // writes the answers.
    pub fn came(&mut self, kept: &mut Kept, out: &mut Printer, room: &mut [u8; ROOM], held: usize)
        requires { held ≤ 1048577 }
    {
        let left = self.whole(kept, out, &room[..held]).len();
        if left < held {
            front(room, held - left, left);
        }
        self.held = if self.long { 0 } else { left };
        if self.held == ROOM {
            wrong(out, self.index, Kind::Long);
            out.bytes(b"\n");
            self.held = 0;
            self.long = true;
        }
        out.flush();
    }

    // Answers the last line, which no line feed ends.
    pub fn last(&self, kept: &mut Kept, out: &mut Printer, room: &[u8; ROOM]) {
        if !self.long {
            kept.answer(out, &room[..self.held], self.index);
        }
        out.flush();
    }
}
