// A binary32 and its pattern, one from the other, at every value and every pattern. A float holds one NaN without sign or fraction,
// so a value that has to keep a NaN's pattern stays a pattern.
#![tactic(auto)]

ghost use Rattle.std.specs.Prelude.{◌≡◌};
ghost use Rattle.std.specs.Float.{binary32};
ghost use Rattle.std.specs.Float.Ieee.{of_bits, to_bits};

use std::num;

// The float that a pattern stands for: the NaN for every NaN's pattern.
pub fn from_bits(p: u32) -> f32
    ensures { result ≡ of_bits binary32 p }
{
    num::f32_from_bits_with_nan(p)
}

// The pattern of a float: 0x7FC00000 for the NaN.
pub fn to_bits(x: f32) -> u32
    ensures { result ≡ to_bits binary32 x }
{
    num::f32_to_bits_with_nan(x)
}
