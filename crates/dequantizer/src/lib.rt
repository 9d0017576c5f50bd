// The centroids of codes: in any table that is lent, and at a width, by the tables of lloyd.
#![tactic(auto)]

ghost use Rattle.std.specs.Prelude.{◌≡◌};
ghost use Rattle.lloyd.specs.Tables.{centroids_of};
ghost use Rattle.lloyd.specs.Quantizer.{centroid_at};

// The centroid of a code in any table, and +0 where there is none.
pub fn dequantize_in(centroids: &[f32], code: usize) -> f32
    ensures { result ≡ centroid_at centroids.now code }
{
    centroids.get(code).copied().unwrap_or(0.0)
}

// The centroid of a code at a width, and +0 where there is none.
pub fn dequantize(code: u8, bits: u8) -> f32
    ensures { result ≡ centroid_at (centroids_of bits) code }
{
    let table = lloyd::centroids(bits);
    dequantize_in(&table[0..lloyd::levels(bits)], code as usize)
}
