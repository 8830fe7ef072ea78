// A signed number in a word of 32 bits, where it stands 2^31 higher.
#![tactic(auto)]

ghost use Rattle.std.specs.Prelude.{◌≡◌, ◌<◌, nat_abs};
ghost use Rattle.signs.specs.Signs.{signed_of};

use integer::Value;

// The number of a word.
pub fn of_word(w: u32) -> Value
    ensures { result.n ≡ signed_of w }
{
    Value {
        n: w as i64 - 2_147_483_648,
    }
}

// The word of a number.
pub fn to_word(x: Value) -> u32
    requires { nat_abs x.n < 2147483648 }
    ensures { signed_of result ≡ x.n }
{
    (x.n + 2_147_483_648) as u32
}
