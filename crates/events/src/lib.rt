// Host events (document 02, L13): a delay in samples or a loss, as f32, on one of six strings. A delay is an
// announced change with the string's order kept; a loss is the string's loss call. Contracts cite
// specs/Events.antt.
#![tactic(auto)]

ghost use Rattle.std.specs.Prelude.{◌≡◌, [], ◌≤◌, get_or};
ghost use Rattle.refusal.specs.Numbers.{code_of};
ghost use Rattle.strings.specs.Rows.{Heads};
ghost use Rattle.events.specs.declared.Event.TheVariants.{Delay as DelayOf, Loss as LossOf};
ghost use Rattle.events.specs.Events.{Handled};

use refusal::{Refusal, within};
use voice::Tuning;

#[derive(Clone, Copy)]
pub enum Event {
    Delay(f32),
    Loss(f32),
}

// The order in force of a string: the first of its words.
fn order_of(heads: &[[u32; 27]; 6], string: u32) -> u32
    requires { Heads heads.now × (string ≤ 5) }
    ensures { result ≡ get_or (get_or heads.now string []) 0 0 }
{
    heads[string as usize][0]
}

// A delay: the change is announced.
fn handle_delay(heads: &mut [[u32; 27]; 6], string: u32, x: f32) -> Result<(), Refusal>
    requires { Heads heads.old × (string ≤ 5) }
    ensures { Handled heads.old string (DelayOf x) (code_of result) heads.new }
{
    let order = order_of(heads, string);
    let parts = floats::delay::split(order, x)?;
    let to = Tuning {
        order,
        length: parts.length,
        delay: parts.delay,
    };
    strings::changes::announce(heads, string, to)
}

// A loss.
fn handle_loss(heads: &mut [[u32; 27]; 6], string: u32, x: f32) -> Result<(), Refusal>
    requires { Heads heads.old × (string ≤ 5) }
    ensures { Handled heads.old string (LossOf x) (code_of result) heads.new }
{
    let g = floats::loss::enter(x)?;
    strings::set_loss(heads, string, g)
}

// An event on a string: 24 where there is no such string, ahead of the float's own tests.
pub fn handle(heads: &mut [[u32; 27]; 6], string: u32, e: Event) -> Result<(), Refusal>
    requires { Heads heads.old }
    ensures { Handled heads.old string e (code_of result) heads.new }
{
    within(Refusal::NoString, string, 0, 5)?;
    match e {
        Event::Delay(x) => handle_delay(heads, string, x),
        Event::Loss(x) => handle_loss(heads, string, x),
    }
}
