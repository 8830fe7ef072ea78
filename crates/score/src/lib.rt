// The run of a score: a voice opened from its header, then record after record until the bytes end.
// A record's number is known before any of its samples is written.
#![tactic(auto)]

ghost use Rattle.std.specs.Prelude.{◌≡◌, List, ℕ};
ghost use Rattle.refusal.specs.Limits.{refusal as First};
ghost use Rattle.refusal.specs.Numbers.{code_of};
ghost use Rattle.voice.specs.Struct.{state_of};
ghost use Rattle.voice.specs.Valid.{Valid};
ghost use Rattle.record.specs.Record.{fields};
ghost use Rattle.score.specs.Run.{play_limits};
ghost use Rattle.score.specs.Opened.{Reads};
ghost use Rattle.score.specs.Played.{returned_of, PlaysAll, Runs};

use follow::changes::started;
use loops::carried::after;
use open::Opening;
use record::{WAIT, read_record, word};
use refusal::Refusal;
use voice::{Head, Kind, Tuning, settle};

// What a run returns: its answer, its place, and how many samples it wrote. A run that is refused has these too.
#[derive(Clone, Copy)]
pub struct Played {
    pub answer: Result<(), Refusal>,
    pub place: usize,
    pub written: usize,
}

// How far a run has come, refused or not: the records that it followed, and the samples that it wrote.
#[derive(Clone, Copy)]
struct Progress {
    place: usize,
    written: usize,
}

// What a record is refused by before any of its samples, with so much room: 14, 15, 16.
fn refused(r: &[u32; 9], room: usize) -> Result<(), Refusal>
    ensures { (s : List ℕ) → r.now ≡ fields s → code_of result ≡ First (play_limits s room) }
{
    follow::unread(r)?;
    if room < r[WAIT] as usize {
        return Err(Refusal::OutputFull);
    }
    Ok(())
}

// The records of a score, each on the voice that the one before it left.
fn play(
    line: &mut [i32; 2112],
    mut head: Head,
    records: &[u8],
    output: &mut [i32],
    progress: &mut Progress,
) -> Result<(), Refusal>
    requires { Valid head line.old × (progress.old.place ≡ 0) × (progress.old.written ≡ 0) }
    ensures { PlaysAll records.now (state_of head line.old) output.old (record {
      refusal = code_of result;
      place = progress.new.place;
      written = progress.new.written;
    }) output.new }
{
    let mut t = records;
    let mut r = [0u32; 9];
    // Not a `for`: a record's length is known once it is read.
    while !t.is_empty() {
        let rest = read_record(t, &mut r);
        let start = progress.written;
        refused(&r, output.len() - start)?;
        let wait = r[WAIT] as usize;
        let end = start + wait;
        let p = render::begin(line, head, &mut output[start..end]);
        let n = p.ran.done;
        head = after(head, p);
        if n != wait {
            head = render::rest(line, head, n, &mut output[start..end]);
        }
        progress.written = end;
        if follow::announces(&r) {
            let f = started(head, &r)?;
            head = settle(head, Kind::Announced, f, 0);
        } else if follow::sets(&r) {
            follow::act(line, &mut head, &r)?;
        }
        t = rest;
        progress.place += 1;
    }
    Ok(())
}

// What the header of a score opens its voice with: order and advance, a byte each, then L, d and G.
pub fn opening(score: &[u8]) -> Result<Opening, Refusal>
    ensures { Reads score.now result }
{
    if score.len() < 8 {
        return Err(Refusal::CutShort);
    }
    Ok(Opening {
        tuning: Tuning {
            order: u32::from(score[0]),
            length: word(score, 2),
            delay: word(score, 4),
        },
        loss: word(score, 6),
        advance: u32::from(score[1]),
    })
}

// The header and the records.
fn follow_all(score: &[u8], output: &mut [i32], progress: &mut Progress) -> Result<(), Refusal>
    requires { (progress.old.place ≡ 0) × (progress.old.written ≡ 0) }
    ensures { Runs score.now output.old (record {
      refusal = code_of result;
      place = progress.new.place;
      written = progress.new.written;
    }) output.new }
{
    let o = open::open(opening(score)?);
    o.answer?;
    let mut line = o.voice.line;
    play(&mut line, o.voice.head, &score[8..], output, progress)
}

// The run of a score, over an output that it is lent.
pub fn run(score: &[u8], output: &mut [i32]) -> Played
    ensures { Runs score.now output.old (returned_of result) output.new }
{
    let mut progress = Progress {
        place: 0,
        written: 0,
    };
    let answer = follow_all(score, output, &mut progress);
    Played {
        answer,
        place: progress.place,
        written: progress.written,
    }
}
