// The refusals of the calls of documents 01 and 02, each with its number there, and the tests that give them, one after
// the other. What a call is refused by is the first, in the order listed, whose test is met (specs/Limits.antt).
#![tactic(auto)]

ghost use Rattle.std.specs.Prelude.{◌≡◌, [], ◌∷◌};
ghost use Rattle.refusal.specs.Limits.{outside as Outside, refusal as First};
ghost use Rattle.refusal.specs.Numbers.{number_of, code_of};

// What turns a call down, with its number.
#[derive(Clone, Copy, PartialEq, Eq)]
pub enum Refusal {
    Order = 1,
    Length = 2,
    Delay = 3,
    Loss = 4,
    Advance = 5,
    ChangeWaits = 6,
    Amplitude = 7,
    Count = 8,
    BlockLengths = 9,
    Sample = 10,
    Rate = 11,
    Note = 12,
    NoteLength = 13,
    CutShort = 14,
    BitMap = 15,
    OutputFull = 16,
    RecordingRate = 17,
    Room = 18,
    FileForm = 19,
    TooEarly = 20,
    NothingAsked = 21,
    StoredLength = 22,
    StoredPart = 23,
    NoString = 24,
    Area = 25,
    NotFinite = 26,
    FloatRange = 27,
    Headers = 28,
    Alone = 29,
    Merge = 30,
    ListForm = 31,
    NoAdvance = 32,
}

impl Refusal {
    // Its number.
    pub fn number(self) -> u32
        ensures { result ≡ number_of self }
    {
        self as u32
    }
}

// The greatest order, length, loss, advance, amplitude and count that are let pass.
pub const ORDERS: u32 = 3;

pub const LONGEST: u32 = 2_048;

pub const MOST_LOSS: u32 = 65_535;

pub const MOST_ADVANCE: u32 = 64;

pub const LOUDEST_PLUCK: u32 = 255;

pub const LONGEST_PLUCK: u32 = 2_048;

// n is below low or above high.
pub fn outside(n: u32, low: u32, high: u32) -> bool
    ensures { result ≡ Outside n low high }
{
    n < low || high < n
}

// A test: the value is from low to high, or refused.
pub fn within(refusal: Refusal, value: u32, low: u32, high: u32) -> Result<(), Refusal>
    ensures { code_of result
        ≡ First (record { number = number_of refusal; low = low; value = value; high = high } ∷ []) }
{
    if outside(value, low, high) {
        return Err(refusal);
    }
    Ok(())
}

// The number by which a call is refused, 0 for success: what C gets.
pub fn code<T: Copy>(answer: Result<T, Refusal>) -> u32
    ensures { result ≡ code_of answer }
{
    match answer {
        Ok(_) => 0,
        Err(refusal) => refusal.number(),
    }
}
