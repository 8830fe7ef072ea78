// Sums of samples of several strings, and their clip.
ghost use Rattle.std.specs.Prelude.{◌≡◌, map, ◌*◌, ◌≤◌, length};
ghost use Rattle.integer.specs.Rounding.{M, clip as Clip};
ghost use Rattle.samples.specs.Samples.{loudest};
ghost use Rattle.mix.specs.Sums.{plus};

// Adds the samples to the sums: a sum of six samples fits 32 bits.
pub fn add(samples: &[i32], sums: &mut [i32])
    requires samples_len { (length samples.now ≡ length sums.old) × (loudest samples.now ≤ M) }
    requires sums_bound { loudest sums.old ≤ 5 * M }
    ensures { sums.new ≡ plus sums.old samples.now }
{
    for (i, sum) in sums.iter_mut().enumerate() {
        *sum += samples[i];
    }
}

// Makes the output the sums, each clipped.
pub fn clip(sums: &[i32], output: &mut [i32])
    requires { length sums.now ≡ length output.old }
    ensures { output.new ≡ map Clip sums.now }
{
    for (i, y) in output.iter_mut().enumerate() {
        *y = sums[i].clamp(-8_388_607, 8_388_607);
    }
}
