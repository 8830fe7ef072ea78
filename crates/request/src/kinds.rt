// The kinds of lines: the row of the table that each has, how many numbers follow its name, and the largest
// counts of samples.
ghost use Rattle.std.specs.Prelude.{◌≡◌, ◌≤◌, IfSome};
ghost use Rattle.request.specs.Kinds.{number_of};
ghost use Rattle.request.specs.Table.{table as Table, Named, row, name};

use crate::table::TABLE;
use words::pieces::{after, ahead, piece};

// In the order of the table's rows. Empty is a line with no word, Error one that is none of the others, and Long
// one that is too long.
#[derive(Clone, Copy, PartialEq, Eq)]
pub enum Kind {
    Empty,
    Open,
    Loss,
    Pluck,
    Announce,
    Instant,
    Ask,
    Commit,
    Withdraw,
    Block,
    Coefficients,
    Length,
    Note,
    Draw,
    Record,
    Run,
    State,
    Line,
    WavWrite,
    WavRead,
    Gather,
    Least,
    Junction,
    Move,
    Tube,
    Store,
    Load,
    Panel,
    Merge,
    String,
    Mix,
    Help,
    Error,
    Long,
}

// The kinds that a word names.
pub const CALLS: [Kind; 31] = [
    Kind::Open,
    Kind::Loss,
    Kind::Pluck,
    Kind::Announce,
    Kind::Instant,
    Kind::Ask,
    Kind::Commit,
    Kind::Withdraw,
    Kind::Block,
    Kind::Coefficients,
    Kind::Length,
    Kind::Note,
    Kind::Draw,
    Kind::Record,
    Kind::Run,
    Kind::State,
    Kind::Line,
    Kind::WavWrite,
    Kind::WavRead,
    Kind::Gather,
    Kind::Least,
    Kind::Junction,
    Kind::Move,
    Kind::Tube,
    Kind::Store,
    Kind::Load,
    Kind::Panel,
    Kind::Merge,
    Kind::String,
    Kind::Mix,
    Kind::Help,
];

impl Kind {
    // Its row of the table.
    pub fn row(self) -> &'static [u8]
        ensures { result.now ≡ row Table (number_of self) }
    {
        piece(&TABLE, b'\n', (self as usize).saturating_sub(1))
    }

    // The name of its calls, with which the row begins.
    pub fn name(self) -> &'static [u8]
        ensures { result.now ≡ name Table (number_of self) }
    {
        ahead(self.row(), b' ')
    }
}

// The kind of line that a word names. The rest of the table is carried along, which `Kind::name` would walk from
// the start for each kind.
pub fn named(w: &[u8]) -> Kind
    ensures { Named Table w.now (number_of result) }
{
    let mut rest: &[u8] = &TABLE;
    for kind in CALLS {
        let row = ahead(rest, b'\n');
        if w == ahead(row, b' ') {
            return kind;
        }
        rest = after(rest, b'\n');
    }
    Kind::Error
}

// How many numbers follow the name, before any list.
pub fn wanted(kind: Kind) -> usize
    ensures { result ≤ 5 }
{
    match kind {
        Kind::Open => 5,
        Kind::Junction => 4,
        Kind::Pluck
        | Kind::Announce
        | Kind::Instant
        | Kind::Ask
        | Kind::Length
        | Kind::Note
        | Kind::Least => 3,
        Kind::Coefficients | Kind::WavWrite => 2,
        Kind::Loss
        | Kind::Block
        | Kind::Draw
        | Kind::Run
        | Kind::Line
        | Kind::WavRead
        | Kind::Gather
        | Kind::Move
        | Kind::Store
        | Kind::Merge
        | Kind::Mix => 1,
        _ => 0,
    }
}

// Whether a line on a string may have this kind; state and line show a string that there is.
pub fn on_string(kind: Kind, string: u32) -> bool {
    match kind {
        Kind::Open
        | Kind::Loss
        | Kind::Pluck
        | Kind::Announce
        | Kind::Instant
        | Kind::Ask
        | Kind::Commit
        | Kind::Withdraw
        | Kind::Store
        | Kind::Load => true,
        Kind::State | Kind::Line => string <= 5,
        _ => false,
    }
}

// How many samples or bytes a line lends or shows, where its first two numbers are n and m; None where they are
// more than the kind allows.
pub fn lent(kind: Kind, n: u32, m: u32) -> Option<usize>
    ensures { IfSome result (λ count. count ≤ 32768) }
{
    let (count, most) = match kind {
        Kind::WavWrite => (m, 16_384),
        Kind::Merge => (n, 32_768),
        Kind::Store | Kind::Run => (n, 16_384),
        Kind::Block | Kind::WavRead | Kind::Mix => (n, 4_096),
        Kind::Line => (n, 2_112),
        _ => (0, 0),
    };
    if count <= most {
        Some(count as usize)
    } else {
        None
    }
}
