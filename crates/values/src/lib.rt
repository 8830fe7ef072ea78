// What a call returns beside its number, for the programs to print. For a refused call these are the values
// of its definition. Contracts cite the routines' own definitions, and `beside` of crate refusal.
#![tactic(auto)]

ghost use Rattle.std.specs.Prelude.{◌≡◌, [], ◌∷◌};
ghost use Rattle.refusal.specs.Numbers.{beside};
ghost use Rattle.thiran.specs.Answers.{designed};
ghost use Rattle.pitch.specs.Pitch.{pitch_of};
ghost use Rattle.wav.specs.Recorded.{read_answer};
ghost use Rattle.load.specs.Loaded.{shown};
ghost use Rattle.tube.specs.Struct.{sampled};
ghost use Rattle.voice.specs.Called.{answered};

use load::Shown;
use pitch::Parts;
use refusal::Refusal;
use thiran::Taps;
use tube::Junction;
use tube::sample::Step;
use voice::Head;
use wav::Recorded;

// A number, 0 where it is refused.
pub fn number(answer: Result<u32, Refusal>) -> u32
    ensures { result ≡ beside answer }
{
    answer.unwrap_or(0_u32)
}

// A count of bytes, 0 where it is refused.
pub fn size(answer: Result<usize, Refusal>) -> usize
    ensures { result ≡ beside answer }
{
    answer.unwrap_or(0_usize)
}

// Coefficients, all 0 where they are refused.
pub fn taps(answer: Result<Taps, Refusal>) -> Taps
    ensures { (result.a1 ≡ (designed answer).a1)
        × (result.a2 ≡ (designed answer).a2)
        × (result.a3 ≡ (designed answer).a3) }
{
    answer.unwrap_or(Taps {
        a1: 0,
        a2: 0,
        a3: 0,
    })
}

// L and d, both 0 where the note is refused.
pub fn parts(answer: Result<Parts, Refusal>) -> Parts
    ensures { (result.length ≡ (pitch_of answer).length)
        × (result.delay ≡ (pitch_of answer).delay) }
{
    answer.unwrap_or(Parts {
        length: 0,
        delay: 0,
    })
}

// Rate and count of samples, both 0 where the file is refused.
pub fn recorded(answer: Result<Recorded, Refusal>) -> Recorded
    ensures { (result.rate ≡ (read_answer answer).rate)
        × (result.count ≡ (read_answer answer).count) }
{
    answer.unwrap_or(Recorded { rate: 0, count: 0 })
}

// What the panel shows: of bytes that it refuses, the length, delay and loss of a refused opening.
pub fn panel(answer: Result<Shown, Refusal>) -> Shown
    ensures { (result.length ≡ (shown answer).length)
        × (result.delay ≡ (shown answer).delay)
        × (result.loss ≡ (shown answer).loss) }
{
    answer.unwrap_or(Shown {
        length: 1,
        delay: 4_096,
        loss: 0,
    })
}

// What goes to the right and to the left, both 0 where the samples are refused.
pub fn outputs(junction: Junction, answer: Result<Step, Refusal>) -> [i32; 2]
    ensures { result
        ≡ (sampled junction answer).outputs.right
        ∷ (sampled junction answer).outputs.left
        ∷ [] }
{
    match answer {
        Ok(step) => [step.right, step.left],
        Err(_) => [0, 0],
    }
}

// The head that a call leaves: where it is refused, the one that it was made on.
pub fn head_after(head: Head, answer: Result<Head, Refusal>) -> Head
    ensures { result ≡ (answered head answer).head }
{
    answer.unwrap_or(head)
}
