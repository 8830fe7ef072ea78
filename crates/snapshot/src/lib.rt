// Storing and loading a voice in memory that a host keeps: 27 words, which crate packed reads and writes, and a
// line. Document 02, L10. Storing requires the voice's invariant; loading requires nothing, and gives it.
#![tactic(auto)]

ghost use Rattle.refusal.specs.Numbers.{code_of, beside};
ghost use Rattle.voice.specs.Struct.{state_of};
ghost use Rattle.voice.specs.Valid.{Valid};
ghost use Rattle.packed.specs.Words.{head_of};
ghost use Rattle.store.specs.Stores.{Stores};
ghost use Rattle.load.specs.Loaded.{Loads};

use packed::{pack, unpack};
use refusal::Refusal;

// Stores the voice in the bytes, and returns how many they are. 18 where there are fewer.
pub fn store(head: &[u32; 27], line: &[i32; 2112], bytes: &mut [u8]) -> Result<usize, Refusal>
    requires { Valid (head_of head.now) line.now }
    ensures { Stores (state_of (head_of head.now) line.now) bytes.old
        bytes.new (record { refusal = code_of result; length = beside result }) }
{
    store::store(line, unpack(head), bytes)
}

// Loads the voice that the bytes hold, whatever the memory held. Refused by 22 or 23, it leaves Open's refusal
// voice, line and all.
pub fn load(head: &mut [u32; 27], line: &mut [i32; 2112], bytes: &[u8]) -> Result<(), Refusal>
    ensures { Loads bytes.now (record { refusal = code_of result; head = head_of head.new })
        line.new }
{
    let loaded = load::load(bytes, line);
    *head = pack(loaded.head);
    loaded.answer
}
