// Samples in slices: read, written, copied, and told from other numbers.
// Contracts read the slice as the list of its numbers.
#![tactic(auto)]

ghost use Rattle.std.specs.Prelude.{◌≡◌, ◌≤◌, ◌<◌, leb, ltb, pos, nat_abs, length, get_or, set};
ghost use Rattle.integer.specs.Rounding.{M};
ghost use Rattle.samples.specs.Samples.{loudest as Loudest};

use integer::Value;

// The number at place i.
pub fn read(s: &[i32], i: usize) -> Value
    requires { i < length s.now }
    ensures { result.n ≡ get_or s.now i (pos 0) }
{
    Value { n: i64::from(s[i]) }
}

// Puts a sample at place i.
pub fn write(s: &mut [i32], i: usize, y: Value)
    requires { (i < length s.old) × (nat_abs y.n ≤ M) }
    ensures { s.new ≡ set s.old i y.n }
{
    s[i] = y.n as i32;
}

// Every number of the slice is a sample.
pub fn all_samples(s: &[i32]) -> bool
    ensures { result ≡ leb (Loudest s.now) M }
{
    loudest(s) <= 8_388_607
}

// The largest magnitude of the slice, 0 where it is empty. The loop goes to the end, whatever it meets: so it
// is compiled to take several numbers at a time.
pub fn loudest(s: &[i32]) -> u32
    ensures { result ≡ Loudest s.now }
{
    let mut top = 0;
    for x in s {
        top = top.max(x.unsigned_abs());
    }
    top
}

// Some number of the slice is not 0. This loop goes to the end too, and does less at each number.
pub fn sounds(s: &[i32]) -> bool
    ensures { result ≡ ltb 0 (Loudest s.now) }
{
    let mut some = false;
    for &x in s {
        some |= x != 0;
    }
    some
}

// The number is a sample.
pub fn is_sample(x: Value) -> bool
    ensures { result ≡ leb (nat_abs x.n) M }
{
    (-8_388_607..=8_388_607).contains(&x.n)
}

// Copies the input to the output, which has the same length. This is a loop because std's `copy_from_slice`
// would make the C archive depend on memmove.
pub fn copy(input: &[i32], output: &mut [i32])
    requires { length input.now ≡ length output.old }
    ensures { output.new ≡ input.now }
{
    for (i, y) in output.iter_mut().enumerate() {
        *y = input[i];
    }
}
