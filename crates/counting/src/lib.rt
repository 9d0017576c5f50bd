// The code of a value over any boundaries, by counting those below it.
#![tactic(auto)]

ghost use Rattle.std.specs.Prelude.{◌≡◌, cond};
ghost use Rattle.std.specs.Float.Ieee.{lt};
ghost use Rattle.lloyd.specs.Quantizer.{quantized};

// n where x is above the boundary b, else 0. The choice needs no jump.
pub fn above(b: f32, x: f32, n: usize) -> usize
    ensures { result ≡ cond (lt b x) n 0 }
{
    if x > b { n } else { 0 }
}

// The code of x over any boundaries, whether they rise or not.
pub fn quantize_in(boundaries: &[f32], x: f32) -> usize
    ensures { result ≡ quantized boundaries.now x }
{
    boundaries.iter().filter(|b| x > **b).count()
}
