// The noise generator of a pluck: a state that is lent for each draw, and left advanced.
// Contracts cite specs/Noise.antt.
#![tactic(auto)]

ghost use Rattle.std.specs.Prelude.{◌≡◌};
ghost use Rattle.noise.specs.Noise.{next as Next, value, drawn};

use integer::wrapping_mul_u32;

// What a draw gives: the value, and the state after it.
#[derive(Clone, Copy)]
pub struct Drawn {
    pub value: i32,
    pub state: u32,
}

// A noise state that a caller lends, and finds advanced. Document 01 names this form.
#[derive(Clone, Copy)]
pub struct Noise {
    pub state: u32,
}

impl Noise {
    // One draw on the lent state.
    pub fn draw(&mut self) -> i32
        ensures { (result ≡ value (Next self.old.state))
            × (self.new.state ≡ Next self.old.state) }
    {
        let next = wrapping_mul_u32(1_664_525, self.state).wrapping_add(1_013_904_223);
        self.state = next;
        (next / 65_536) as i32 - 32_768
    }
}

// One draw on a state that a struct of the caller holds: it is lent, and the state that is left is returned.
pub fn draw(state: u32) -> Drawn
    ensures { result ≡ drawn state }
{
    let mut noise = Noise { state };
    let value = noise.draw();
    Drawn {
        value,
        state: noise.state,
    }
}
