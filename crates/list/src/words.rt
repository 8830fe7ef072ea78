// The words of a list of calls, read call by call, and whether they can be performed with so much input,
// output and places for numbers: one pass, before anything is done. Contracts cite specs/Words.antt and specs/Items.antt.
ghost use Rattle.std.specs.Prelude.{◌≡◌, ◌<◌, ◌&&◌, leb, ltb, IsNone, IfSome};
ghost use Rattle.list.specs.Words.{last_kind, formed as Formed};
ghost use Rattle.list.specs.Items.{inputs_of, outputs_of, Reads};

use voice::{Pluck, Tuning};

// A call that is no block.
#[derive(Clone, Copy)]
pub enum Call {
    Loss(u32),
    Pluck(Pluck),
    Announce(Tuning),
    Instant(Tuning),
    Ask(Tuning),
    Commit,
    Withdraw,
}

// An item of a list is a call: a block of so many inputs and outputs, or another.
#[derive(Clone, Copy)]
pub enum Item {
    Block(usize, usize),
    Call(Call),
}

impl Item {
    // The item of four words, a kind and three numbers. There are the kinds 0 to 7.
    pub fn read(kind: u32, a: u32, b: u32, c: u32) -> Option<Item>
        ensures none { IsNone result → last_kind < kind }
        ensures some { IfSome result (λ i. Reads kind a b c i) }
    {
        let to = Tuning {
            order: a,
            length: b,
            delay: c,
        };
        let call = match kind {
            0 => return Some(Item::Block(a as usize, b as usize)),
            1 => Call::Loss(a),
            2 => Call::Pluck(Pluck {
                amplitude: a,
                left: b,
                noise: c,
            }),
            3 => Call::Announce(to),
            4 => Call::Instant(to),
            5 => Call::Ask(to),
            6 => Call::Commit,
            7 => Call::Withdraw,
            _ => return None,
        };
        Some(Item::Call(call))
    }

    // How many samples it takes from the input.
    pub fn inputs(self) -> usize
        ensures { result ≡ inputs_of self }
    {
        match self {
            Item::Block(inputs, _) => inputs,
            Item::Call(_) => 0,
        }
    }

    // How long an output it lends.
    pub fn outputs(self) -> usize
        ensures { result ≡ outputs_of self }
    {
        match self {
            Item::Block(_, outputs) => outputs,
            Item::Call(_) => 0,
        }
    }

    // Whether it fits what is left.
    fn fits(self, inputs: usize, outputs: usize, numbers: usize) -> bool
        ensures { result
            ≡ (leb (inputs_of self) inputs && (leb (outputs_of self) outputs && ltb 0 numbers)) }
    {
        self.inputs() <= inputs && self.outputs() <= outputs && 0 < numbers
    }
}

// Whole calls, each of which fits.
pub fn formed(mut words: &[u32], mut inputs: usize, mut outputs: usize, mut numbers: usize) -> bool
    ensures { result ≡ Formed words.now inputs outputs numbers }
{
    while let [kind, a, b, c, rest @ ..] = words {
        let Some(item) = Item::read(*kind, *a, *b, *c) else {
            return false;
        };
        if !item.fits(inputs, outputs, numbers) {
            return false;
        }
        inputs = inputs - item.inputs();
        outputs = outputs - item.outputs();
        numbers = numbers - 1;
        words = rest;
    }
    words.is_empty()
}
