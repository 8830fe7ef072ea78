// Standard input, a part at a time: one read takes what is there, and puts it behind what a room holds.
// Contracts say how much the room then holds, and cannot say which bytes were read.
// The room and how much it holds are no struct: the console keeps the one in its frame and the other from call
// to call, and the clauses speak of both.
#![tactic(auto)]

ghost use Rattle.std.specs.Prelude.{◌≡◌, ◌+◌, ◌≤◌, length, drop, MatchResult};
ghost use Rattle.std.proofs.Math.Seq.{paste};

use std::io::{Read, Stdin};

// A read that failed: how many bytes the room holds, as many as before, and the error as the system numbers it,
// which `complain` of print takes.
#[derive(Clone, Copy)]
pub struct Failed {
    pub held: usize,
    pub code: i32,
}

// One read into a room that holds some bytes: how many it holds then, as many as before where the input ends.
pub fn more(mut from: Stdin, room: &mut [u8], held: usize) -> Result<usize, Failed>
    ensures { MatchResult result (λ n. n ≤ length room.old) (λ e. e.held ≤ length room.old) }
{
    if held > room.len() {
        return Ok(room.len());
    }
    match from.read(&mut room[held..]) {
        Ok(n) => Ok(held + n),
        Err(e) => Err(Failed {
            held,
            code: e.raw_os_error().unwrap_or(0),
        }),
    }
}

// Reads until the room is full, the input ends or a read fails. A while, since no read comes at a known place.
pub fn full(from: Stdin, room: &mut [u8]) -> Result<usize, Failed>
    ensures { MatchResult result (λ n. n ≤ length room.old) (λ e. e.held ≤ length room.old) }
{
    let mut held = 0;
    while held < room.len() {
        let n = more(from, room, held)?;
        if n <= held {
            return Ok(n);
        }
        held = n;
    }
    Ok(held)
}

// Moves n bytes of a room, from a place on, to its front.
pub fn front(room: &mut [u8], from: usize, n: usize)
    requires { from + n ≤ length room.old }
    ensures { room.new ≡ paste room.old 0 (drop from room.old) n }
{
    room.copy_within(from..from + n, 0);
}
