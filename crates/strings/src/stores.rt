// Storing one of six strings in bytes that are lent, and loading one from bytes (document 02, L11): 24 where
// there is no such string; else the store or the load of crate snapshot on that row.
ghost use Rattle.std.specs.Prelude.{◌≡◌};
ghost use Rattle.refusal.specs.Numbers.{code_of, beside};
ghost use Rattle.instrument.specs.Strings.{on, store as Storing, load as Loading, number, counted, lent};
ghost use Rattle.strings.specs.Rows.{strings_of, Voices, Played};

use crate::row;
use refusal::Refusal;

// Stores a string in the bytes, and returns how many they are. 18 where there are fewer.
pub fn store(
    heads: &[[u32; 27]; 6],
    lines: &[[i32; 2112]; 6],
    string: u32,
    bytes: &mut [u8],
) -> Result<usize, Refusal>
    requires { Voices heads.now lines.now }
    ensures value { code_of result ≡ number (strings_of heads.now lines.now) (on string (Storing bytes.old)) }
    ensures length { beside result ≡ counted (strings_of heads.now lines.now) string (Storing bytes.old) }
    ensures bytes_after { bytes.new
        ≡ lent (strings_of heads.now lines.now) string bytes.old }
{
    let from = row(string)?;
    snapshot::store(&heads[from], &lines[from], bytes)
}

// Loads the voice that the bytes hold into a string. By 22 or 23 it leaves Open's refusal voice there.
pub fn load(
    heads: &mut [[u32; 27]; 6],
    lines: &mut [[i32; 2112]; 6],
    string: u32,
    bytes: &[u8],
) -> Result<(), Refusal>
    requires { Voices heads.old lines.old }
    ensures { Played heads.old lines.old (on string (Loading bytes.now)) (code_of result) heads.new lines.new }
{
    let k = row(string)?;
    snapshot::load(&mut heads[k], &mut lines[k], bytes)
}
