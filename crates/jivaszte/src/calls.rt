// Calls on a voice in memory that the host keeps: 27 words, which only these routines write, and a line. In
// the header they are jivaszte_voice_open and so on, over a pointer to both. What a call requires is the
// voice's invariant, which Open gives and each call hands on, and which `jivaszte_packed_check` tests.
ghost use Rattle.std.specs.Prelude.{◌≡◌, ◌↔◌, ◌≤◌, pos, length, replicate};
ghost use Rattle.rule.specs.Calls.{loss as Loss, pluck as Plucking, block as Block};
ghost use Rattle.rule.specs.Calls.{announce as Announce, ask as Ask, instant as Instant};
ghost use Rattle.rule.specs.Calls.{commit as Commit, withdraw as Withdraw, count as Count};
ghost use Rattle.rule.specs.Voice.{tuning};
ghost use Rattle.rule.specs.State.{back};
ghost use Rattle.line.specs.Ring.{ring};
ghost use Rattle.voice.specs.Struct.{voice_of};
ghost use Rattle.voice.specs.Valid.{Fit, Valid};
ghost use Rattle.voice.specs.Called.{Called, On, lent};
ghost use Rattle.open.specs.Opened.{Opens};
ghost use Rattle.packed.specs.Words.{head_of};
ghost use Rattle.kept.specs.Lent.{answer_of, opened_of};
ghost use Rattle.kept.specs.Awaited.{awaited};

use open::Opening;
use refusal::code;
use voice::{Pluck, Tuning};

// Opens a voice, whatever the memory held: a refused opening leaves the refusal voice.
pub fn jivaszte_packed_open(
    head: &mut [u32; 27],
    line: &mut [i32; 2112],
    order: u32,
    length: u32,
    delay: u32,
    loss: u32,
    advance: u32,
) -> u32
    ensures { Opens (record { N = order; L = length; d = delay; G = loss; Na = advance })
        (opened_of result head.new line.new) }
{
    let tuning = Tuning {
        order,
        length,
        delay,
    };
    code(kept::open_voice(
        head,
        line,
        Opening {
            tuning,
            loss,
            advance,
        },
    ))
}

// Sets the loss.
pub fn jivaszte_packed_loss(head: &mut [u32; 27], g: u32) -> u32
    requires { Fit (head_of head.old) }
    ensures { Called (head_of head.old) (Loss g) (answer_of result head.new) }
{
    code(kept::set_loss(head, g))
}

// Starts a pluck in place of the rest of the old one.
pub fn jivaszte_packed_pluck(head: &mut [u32; 27], amplitude: u32, count: u32, seed: u32) -> u32
    requires { Fit (head_of head.old) }
    ensures { Called (head_of head.old) (Plucking amplitude count seed) (answer_of result head.new) }
{
    let p = Pluck {
        amplitude,
        left: count,
        noise: seed,
    };
    code(kept::pluck(head, p))
}

// Announces a change, which takes effect after as many samples as the advance.
pub fn jivaszte_packed_announce(head: &mut [u32; 27], order: u32, length: u32, delay: u32) -> u32
    requires { Fit (head_of head.old) }
    ensures { Called (head_of head.old) (Announce (tuning order length delay)) (answer_of result head.new) }
{
    let to = Tuning {
        order,
        length,
        delay,
    };
    code(kept::changes::announce(head, to))
}

// Changes at once; count is how many samples of the line the eliminator was run over.
pub fn jivaszte_packed_instant(
    head: &mut [u32; 27],
    line: &[i32; 2112],
    order: u32,
    length: u32,
    delay: u32,
    count: &mut u32,
) -> u32
    requires { Valid (head_of head.old) line.now }
    ensures on { On (head_of head.old) line.now (Instant (tuning order length delay))
        (answer_of result head.new) line.now }
    ensures count_after { count.new
        ≡ Count (voice_of (head_of head.old))
        (back (ring (head_of head.old).at line.now)) (Instant (tuning order length delay)) }
{
    let to = Tuning {
        order,
        length,
        delay,
    };
    let answer = kept::changes::instant(head, line, to);
    *count = answer.unwrap_or(0);
    code(answer)
}

// Asks for a change, which takes effect when it is committed.
pub fn jivaszte_packed_ask(head: &mut [u32; 27], order: u32, length: u32, delay: u32) -> u32
    requires { Fit (head_of head.old) }
    ensures { Called (head_of head.old) (Ask (tuning order length delay)) (answer_of result head.new) }
{
    let to = Tuning {
        order,
        length,
        delay,
    };
    code(kept::changes::ask(head, to))
}

// Puts the change that was asked for in force, before the next sample.
pub fn jivaszte_packed_commit(head: &mut [u32; 27]) -> u32
    requires { Fit (head_of head.old) }
    ensures { Called (head_of head.old) Commit (answer_of result head.new) }
{
    code(kept::changes::commit(head))
}

// Drops the change that was asked for.
pub fn jivaszte_packed_withdraw(head: &mut [u32; 27]) -> u32
    requires { Fit (head_of head.old) }
    ensures { Called (head_of head.old) Withdraw (answer_of result head.new) }
{
    code(kept::changes::withdraw(head))
}

// A block: an output for each input.
pub fn jivaszte_packed_block(
    head: &mut [u32; 27],
    line: &mut [i32; 2112],
    input: &[i32],
    output: &mut [i32],
) -> u32
    requires { Valid (head_of head.old) line.old }
    ensures on { On (head_of head.old) line.old
        (Block input.now (length output.old)) (answer_of result head.new)
        line.new }
    ensures output_after { output.new
        ≡ lent (head_of head.old) line.old
        (Block input.now (length output.old)) output.old }
{
    code(kept::blocks::feed(head, line, input, output))
}

// A block of zeros, as long as the output: no input is read.
pub fn jivaszte_packed_play(head: &mut [u32; 27], line: &mut [i32; 2112], output: &mut [i32]) -> u32
    requires { Valid (head_of head.old) line.old }
    ensures on { On (head_of head.old) line.old
        (Block (replicate (length output.old) (pos 0)) (length output.old))
        (answer_of result head.new) line.new }
    ensures output_after { output.new
        ≡ lent (head_of head.old) line.old
        (Block (replicate (length output.old) (pos 0)) (length output.old))
        output.old }
{
    kept::blocks::play(head, line, output);
    0
}

// How many samples an announced change still takes, or an asked one until its commit is accepted; 0 where
// nothing waits.
pub fn jivaszte_packed_waits(head: &[u32; 27]) -> u32
    requires { Fit (head_of head.now) }
    ensures { result ≡ awaited (voice_of (head_of head.now)) }
{
    kept::waits::waits(head)
}

// 1 where the words and the line are a voice, else 0: for memory that came from elsewhere.
pub fn jivaszte_packed_check(head: &[u32; 27], line: &[i32; 2112]) -> u32
    ensures upper_bound { result ≤ 1 }
    ensures variant { (result ≡ 1) ↔ Valid (head_of head.now) line.now }
{
    if kept::checks::check(head, line) {
        1
    } else {
        0
    }
}
