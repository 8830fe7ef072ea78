// A stored voice: document 02, L10. In the header jivaszte_voice_store, jivaszte_voice_load and jivaszte_panel.
ghost use Rattle.voice.specs.Struct.{state_of};
ghost use Rattle.voice.specs.Valid.{Valid};
ghost use Rattle.packed.specs.Words.{head_of};
ghost use Rattle.store.specs.Stores.{Stores};
ghost use Rattle.load.specs.Loaded.{Loads, Shows};

use load::Shown;
use refusal::code;

// What the panel shows of Open's refusal voice.
const REFUSED: Shown = Shown {
    length: 1,
    delay: 4_096,
    loss: 0,
};

// Stores a voice in the bytes.
pub fn jivaszte_packed_store(
    head: &[u32; 27],
    line: &[i32; 2112],
    bytes: &mut [u8],
    length: &mut usize,
) -> u32
    requires { Valid (head_of head.now) line.now }
    ensures { Stores (state_of (head_of head.now) line.now) bytes.old
        bytes.new (record { refusal = result; length = length.new }) }
{
    let answer = snapshot::store(head, line, bytes);
    *length = answer.unwrap_or(0);
    code(answer)
}

// Loads a voice, whatever the memory held; by a refusal Open's refusal voice.
pub fn jivaszte_packed_load(head: &mut [u32; 27], line: &mut [i32; 2112], bytes: &[u8]) -> u32
    ensures { Loads bytes.now (record { refusal = result; head = head_of head.new })
        line.new }
{
    code(snapshot::load(head, line, bytes))
}

// Length, delay and loss of a stored voice.
pub fn jivaszte_panel(bytes: &[u8], span: &mut u32, delay: &mut u32, loss: &mut u32) -> u32
    ensures { Shows bytes.now (record {
      refusal = result;
      length = span.new;
      delay = delay.new;
      loss = loss.new;
    }) }
{
    let answer = load::panel(bytes);
    let n = answer.unwrap_or(REFUSED);
    *span = n.length;
    *delay = n.delay;
    *loss = n.loss;
    code(answer)
}
