// What the console keeps from one line to the next: a voice, a tube junction and six strings.
ghost use Rattle.voice.specs.Valid.{Valid};
ghost use Rattle.tube.specs.Valid.{Valid as Joined};
ghost use Rattle.tube.specs.Words.{from_words};
ghost use Rattle.strings.specs.Rows.{Voices};
ghost use Rattle.console.specs.Once.{Valid-prop, Joined-prop, Voices-prop};

use voice::Head;

#[derive(Drop)]
pub struct KeptVoice {
    pub line: [i32; 2112],
    pub head: Head,
    ghost valid: { Valid head line } by { Valid-prop head line },
}

// In the 16 words that a host lends.
#[derive(Drop)]
pub struct KeptJunction {
    pub words: [u32; 16],
    ghost joined: { Joined (from_words words) } by { Joined-prop (from_words words) },
}

// A row of 27 words and a line for each string, as a host lends them.
#[derive(Drop)]
pub struct KeptStrings {
    pub heads: [[u32; 27]; 6],
    pub lines: [[i32; 2112]; 6],
    ghost voices: { Voices heads lines } by { Voices-prop heads lines },
}

#[derive(Drop)]
pub struct Kept {
    pub voice: KeptVoice,
    pub junction: KeptJunction,
    pub strings: KeptStrings,
}
