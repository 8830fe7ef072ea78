// The calls of a list, one after the other, each on the voice that the call before it left.
// What a block puts out follows what the blocks before it put out. Contracts cite specs/Performed.antt.
ghost use Rattle.std.specs.Prelude.{◌≡◌, true, length};
ghost use Rattle.rule.specs.State.{puts, numbers as Numbers};
ghost use Rattle.voice.specs.Struct.{state_of};
ghost use Rattle.voice.specs.Valid.{Valid};
ghost use Rattle.list.specs.Words.{calls, formed};
ghost use Rattle.samples.specs.Samples.{over};

use crate::one::one;
use crate::words::Item;
use refusal::code;
use voice::Head;

// Makes the calls of words, which are in form, and returns how many samples they put out.
pub fn run(
    line: &mut [i32; 2112],
    mut head: Head,
    mut words: &[u32],
    input: &[i32],
    output: &mut [i32],
    numbers: &mut [u32],
) -> usize
    requires { Valid head line.old
        × (formed words.now (length input.now) (length output.old) (length numbers.old) ≡ true) }
    ensures value { result
        ≡ length
        (puts (state_of head line.old) (calls words.now input.now)) }
    ensures output_after { output.new
        ≡ over (puts (state_of head line.old) (calls words.now input.now))
        output.old }
    ensures numbers_after { numbers.new
        ≡ over (Numbers (state_of head line.old) (calls words.now input.now))
        numbers.old }
{
    let mut used = 0;
    let mut written = 0;
    // k counts by hand: by chunks_exact(4) and zip each call is a slice that has to be taken apart again.
    let mut k = 0;
    while let [kind, a, b, c, rest @ ..] = words {
        let item = Item::read(*kind, *a, *b, *c).unwrap();
        let answer = one(
            line,
            &mut head,
            item,
            &input[used..],
            &mut output[written..],
        );
        numbers[k] = code(answer);
        if answer.is_ok() {
            written = written + item.outputs();
        }
        used = used + item.inputs();
        k = k + 1;
        words = rest;
    }
    written
}
