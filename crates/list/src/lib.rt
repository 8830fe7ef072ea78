// One routine that performs a list of calls, in words, on a fresh voice: whatever calls, in whatever order.
// Contracts cite specs/Performed.antt; demand 3 holds of its output for every list, specs/Clicks.antt.
#![tactic(auto)]

ghost use Rattle.open.specs.Opened.{opening_of};
ghost use Rattle.list.specs.Performed.{done, Performs};

use open::{Opening, open};
use refusal::Refusal;

pub mod one;
mod run;
pub mod words;

// What `perform` did: Open's answer, and how many samples the calls put out.
#[derive(Clone, Copy)]
pub struct Performed {
    pub opening: Result<(), Refusal>,
    pub written: usize,
}

// Opens a voice, and makes the calls of words on it, one after the other; 31 where the words are not in form.
pub fn perform(
    opening: Opening,
    words: &[u32],
    input: &[i32],
    output: &mut [i32],
    numbers: &mut [u32],
) -> Result<Performed, Refusal>
    ensures { Performs
        (opening_of opening)
        words.now
        input.now
        output.old
        numbers.old
        (done result)
        output.new
        numbers.new }
{
    if !words::formed(words, input.len(), output.len(), numbers.len()) {
        return Err(Refusal::ListForm);
    }
    let o = open(opening);
    let mut line = o.voice.line;
    let written = run::run(&mut line, o.voice.head, words, input, output, numbers);
    Ok(Performed {
        opening: o.answer,
        written,
    })
}
