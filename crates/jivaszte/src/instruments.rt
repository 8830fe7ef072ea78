// Six strings in memory that the host keeps: a row of 27 words and a line for each, which only these
// routines write. In the header they are jivaszte_instrument_open and so on, over a pointer to both. What
// a call requires is the voice's invariant of each row, which a reset gives and each call hands on.
ghost use Rattle.std.specs.Prelude.{◌≡◌, pos, length, replicate};
ghost use Rattle.rule.specs.Calls.{loss as Loss, pluck as Plucking};
ghost use Rattle.rule.specs.Calls.{announce as Announce, ask as Ask, instant as Instant};
ghost use Rattle.rule.specs.Calls.{commit as Commit, withdraw as Withdraw};
ghost use Rattle.rule.specs.Voice.{tuning};
ghost use Rattle.instrument.specs.Strings.{on, opens, calls, mix as Mix, counted, mix_into};
ghost use Rattle.instrument.specs.Strings.{store as Storing, load as Loading, number, lent};
ghost use Rattle.strings.specs.Rows.{strings_of, Heads, Voices, Called, Played, Resets};

use open::Opening;
use refusal::code;
use voice::{Pluck, Tuning};

// Six strings, whatever the memory held: each is Open's refusal voice.
pub fn jivaszte_strings_reset(heads: &mut [[u32; 27]; 6], lines: &mut [[i32; 2112]; 6])
    ensures { Resets heads.new lines.new }
{
    strings::reset(heads, lines);
}

// Opens a voice on a string.
pub fn jivaszte_strings_open(
    heads: &mut [[u32; 27]; 6],
    lines: &mut [[i32; 2112]; 6],
    string: u32,
    order: u32,
    length: u32,
    delay: u32,
    loss: u32,
    advance: u32,
) -> u32
    requires { Voices heads.old lines.old }
    ensures { Played heads.old lines.old
        (on string (opens (record { N = order; L = length; d = delay; G = loss; Na = advance }))) result
        heads.new lines.new }
{
    let tuning = Tuning {
        order,
        length,
        delay,
    };
    code(strings::open_string(
        heads,
        lines,
        string,
        Opening {
            tuning,
            loss,
            advance,
        },
    ))
}

// Sets the loss of a string.
pub fn jivaszte_strings_loss(heads: &mut [[u32; 27]; 6], string: u32, g: u32) -> u32
    requires { Heads heads.old }
    ensures { Called heads.old string (calls (Loss g)) result heads.new }
{
    code(strings::set_loss(heads, string, g))
}

// Starts a pluck on a string.
pub fn jivaszte_strings_pluck(
    heads: &mut [[u32; 27]; 6],
    string: u32,
    amplitude: u32,
    count: u32,
    seed: u32,
) -> u32
    requires { Heads heads.old }
    ensures { Called heads.old string (calls (Plucking amplitude count seed)) result
        heads.new }
{
    let p = Pluck {
        amplitude,
        left: count,
        noise: seed,
    };
    code(strings::pluck(heads, string, p))
}

// Announces a change on a string.
pub fn jivaszte_strings_announce(
    heads: &mut [[u32; 27]; 6],
    string: u32,
    order: u32,
    length: u32,
    delay: u32,
) -> u32
    requires { Heads heads.old }
    ensures { Called heads.old string (calls (Announce (tuning order length delay))) result
        heads.new }
{
    let to = Tuning {
        order,
        length,
        delay,
    };
    code(strings::changes::announce(heads, string, to))
}

// Changes a string at once; count is how many samples of its line the eliminator was run over.
pub fn jivaszte_strings_instant(
    heads: &mut [[u32; 27]; 6],
    lines: &[[i32; 2112]; 6],
    string: u32,
    order: u32,
    length: u32,
    delay: u32,
    count: &mut u32,
) -> u32
    requires { Voices heads.old lines.now }
    ensures played { Played heads.old lines.now
        (on string (calls (Instant (tuning order length delay)))) result
        heads.new lines.now }
    ensures count_after { count.new
        ≡ counted (strings_of heads.old lines.now) string
        (calls (Instant (tuning order length delay))) }
{
    let to = Tuning {
        order,
        length,
        delay,
    };
    let answer = strings::changes::instant(heads, lines, string, to);
    *count = answer.unwrap_or(0);
    code(answer)
}

// Asks for a change on a string, which takes effect when it is committed.
pub fn jivaszte_strings_ask(
    heads: &mut [[u32; 27]; 6],
    string: u32,
    order: u32,
    length: u32,
    delay: u32,
) -> u32
    requires { Heads heads.old }
    ensures { Called heads.old string (calls (Ask (tuning order length delay))) result
        heads.new }
{
    let to = Tuning {
        order,
        length,
        delay,
    };
    code(strings::changes::ask(heads, string, to))
}

// Puts the change that was asked for in force, before the next sample.
pub fn jivaszte_strings_commit(heads: &mut [[u32; 27]; 6], string: u32) -> u32
    requires { Heads heads.old }
    ensures { Called heads.old string (calls Commit) result heads.new }
{
    code(strings::changes::commit(heads, string))
}

// Drops the change that was asked for.
pub fn jivaszte_strings_withdraw(heads: &mut [[u32; 27]; 6], string: u32) -> u32
    requires { Heads heads.old }
    ensures { Called heads.old string (calls Withdraw) result heads.new }
{
    code(strings::changes::withdraw(heads, string))
}

// A block of all six strings: an output for each input.
pub fn jivaszte_strings_mix(
    heads: &mut [[u32; 27]; 6],
    lines: &mut [[i32; 2112]; 6],
    input: &[i32],
    output: &mut [i32],
) -> u32
    requires { Voices heads.old lines.old }
    ensures played { Played heads.old lines.old
        (Mix input.now (length output.old)) result
        heads.new lines.new }
    ensures output_after { output.new
        ≡ mix_into (strings_of heads.old lines.old) input.now
        output.old }
{
    code(mix::mix(heads, lines, input, output))
}

// A block of zeros of all six strings, as long as the output: no input is read.
pub fn jivaszte_strings_play(
    heads: &mut [[u32; 27]; 6],
    lines: &mut [[i32; 2112]; 6],
    output: &mut [i32],
) -> u32
    requires { Voices heads.old lines.old }
    ensures played { Played heads.old lines.old
        (Mix (replicate (length output.old) (pos 0)) (length output.old)) result
        heads.new lines.new }
    ensures output_after { output.new
        ≡ mix_into (strings_of heads.old lines.old)
        (replicate (length output.old) (pos 0)) output.old }
{
    mix::play(heads, lines, output);
    0
}

// Stores a string in the bytes: how many they are is in length. 18 where there are fewer.
pub fn jivaszte_strings_store(
    heads: &[[u32; 27]; 6],
    lines: &[[i32; 2112]; 6],
    string: u32,
    bytes: &mut [u8],
    length: &mut usize,
) -> u32
    requires { Voices heads.now lines.now }
    ensures value { result ≡ number (strings_of heads.now lines.now)
        (on string (Storing bytes.old)) }
    ensures length_after { length.new
        ≡ counted (strings_of heads.now lines.now) string
        (Storing bytes.old) }
    ensures bytes_after { bytes.new
        ≡ lent (strings_of heads.now lines.now) string bytes.old }
{
    let answer = strings::stores::store(heads, lines, string, bytes);
    *length = answer.unwrap_or(0);
    code(answer)
}

// Loads the voice that the bytes hold into a string.
pub fn jivaszte_strings_load(
    heads: &mut [[u32; 27]; 6],
    lines: &mut [[i32; 2112]; 6],
    string: u32,
    bytes: &[u8],
) -> u32
    requires { Voices heads.old lines.old }
    ensures { Played heads.old lines.old
        (on string (Loading bytes.now)) result heads.new lines.new }
{
    code(strings::stores::load(heads, lines, string, bytes))
}
