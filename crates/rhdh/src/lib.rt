// The randomized Hadamard transform of vecq's rhdh.rs: a vector, padded to a power of two, with signs from a seed, and transformed.
#![tactic(auto)]

ghost use Rattle.std.specs.Prelude.{◌≡◌, length};
ghost use Rattle.padding.specs.Padded.{padded_dim};
ghost use Rattle.rhdh.specs.Rotation.{signed, rotated, applied};

use signs::SignStream;

// The entries of v, padded to the length of out, each times its sign.
#[tactic(auto, using(crate::proofs::Written::written_none))]
fn write_signed(v: &[f32], seed: u64, out: &mut [f32])
    ensures { out.new ≡ signed (length out.old) seed v.now }
{
    let mut stream = SignStream::new(seed);
    for (i, x) in out.iter_mut().enumerate() {
        *x = v.get(i).copied().unwrap_or(0.0) * stream.next_sign();
    }
}

// v rotated, into the whole of out.
#[tactic(auto, unfolding(crate::specs::Rotation::rotated))]
fn rotate(v: &[f32], seed: u64, out: &mut [f32])
    ensures { out.new ≡ rotated (length out.old) seed v.now }
{
    write_signed(v, seed, out);
    fwht::fwht(out);
}

// The rotation of vectors of up to `padded` entries. The signs are made anew from the seed each time, since there is no heap to keep them in.
#[derive(Drop)]
pub struct Rhdh {
    pub padded: usize,
    pub seed: u64,
}

impl Rhdh {
    pub fn new(dim: usize, seed: u64) -> Self
        ensures padded { result.padded ≡ padded_dim dim }
        ensures seed { result.seed ≡ seed }
    {
        Self {
            padded: padding::padded_dim(dim),
            seed,
        }
    }

    // The rotated v, in the first `padded` places of out. Where v or out doesn't fit, or `padded` is no power of two, out is left as it is.
    // By two comparisons: with `contains` of a range the check doesn't find the proof (tried), and it is no shorter.
    #[tactic(auto, using(crate::proofs::Applied::out_short, crate::proofs::Applied::vector_long, crate::proofs::Applied::no_power, crate::proofs::Applied::power))]
    pub fn apply(self, v: &[f32], out: &mut [f32])
        ensures { out.new ≡ applied self.padded self.seed v.now out.old }
    {
        let padded = self.padded;
        if padded <= out.len() && v.len() <= padded && padding::padded_dim(padded) == padded {
            rotate(v, self.seed, &mut out[..padded]);
        }
    }
}
