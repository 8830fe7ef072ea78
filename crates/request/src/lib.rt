// What a line of the console asks: its kind, the numbers that follow its name, and its list.
// The whole line is read before anything is done. Contracts cite specs/InLine.antt.
#![tactic(auto)]

ghost use Rattle.std.specs.Prelude.{◌≡◌, [], ◌≤◌};

pub mod kinds;
mod line;
pub mod lists;
pub mod next;
pub mod pairs;
pub mod table;

use kinds::Kind;
pub use line::parse;

// string is the string that it is a call on, places is how many samples or bytes are lent or shown, list is the
// text of its list of samples or bytes, and numbers are those that follow the name, as many as its kind wants.
#[derive(Clone, Copy)]
pub struct Request<'a> {
    pub kind: Kind,
    pub string: Option<u32>,
    pub places: usize,
    pub list: &'a [u8],
    pub numbers: [u32; 5],
    pub ghost lent: { places ≤ 32768 },
}

// A line of a kind, and nothing else.
pub fn plain<'a>(kind: Kind) -> Request<'a>
    ensures { (result.places ≡ 0) × (result.list.now ≡ []) }
{
    Request {
        kind,
        string: None,
        places: 0,
        list: &[],
        numbers: [0; 5],
    }
}
