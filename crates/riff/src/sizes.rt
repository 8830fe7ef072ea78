// The sizes of a file of so many samples, in bytes.
// Each is that of specs/Format.antt.
ghost use Rattle.std.specs.Prelude.{◌≡◌, ◌^◌, ◌<◌};
ghost use Rattle.riff.specs.Format.{padding as Padding, riff_size, file_size};

// One byte where the data's length is odd.
pub fn padding(count: usize) -> usize
    requires { count < 2 ^ 62 }
    ensures { (result ≡ Padding count) × (result < 2) }
{
    3 * count % 2
}

// The RIFF size: what follows it, the pad byte among it.
pub fn riff_size(count: usize) -> usize
    requires { count < 2 ^ 62 }
    ensures { result ≡ riff_size count }
{
    36 + 3 * count + padding(count)
}

// The whole file.
pub fn file_size(count: usize) -> usize
    requires { count < 2 ^ 62 }
    ensures { result ≡ file_size count }
{
    44 + 3 * count + padding(count)
}
