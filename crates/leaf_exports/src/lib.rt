// The leaves for C and Rust, each under a plain name and with the contract of the function that it passes on to. The drivers of
// tests/exhaustive link them.
#![tactic(auto)]

ghost use Rattle.std.specs.Prelude.{◌≡◌};
ghost use Rattle.half.specs.Half.{Narrowed, Widened};
ghost use Rattle.sqrt.specs.Root.{SquareRoot};
ghost use Rattle.lloyd.specs.Tables.{boundaries_of};
ghost use Rattle.lloyd.specs.Quantizer.{quantized};
ghost use Rattle.fwht.specs.Binary32.{fwht32};

#[unsafe(no_mangle)]
pub extern "C" fn vecq_raw_f32_to_f16_bits(x: u32) -> u16
    ensures { Narrowed x result }
{
    half::f32_to_f16_bits(x)
}

#[unsafe(no_mangle)]
pub extern "C" fn vecq_raw_f16_bits_to_f32(h: u16) -> u32
    ensures { Widened h result }
{
    half::f16_bits_to_f32(h)
}

#[unsafe(no_mangle)]
pub extern "C" fn vecq_raw_sqrt(x: f32) -> f32
    ensures { SquareRoot x result }
{
    sqrt::sqrt(x)
}

#[unsafe(no_mangle)]
pub extern "C" fn vecq_raw_quantize(x: f32, bits: u8) -> u8
    ensures { result ≡ quantized (boundaries_of bits) x }
{
    quantizer::quantize(x, bits)
}

#[unsafe(no_mangle)]
pub extern "C" fn vecq_raw_fwht(v: &mut [f32])
    ensures { v.new ≡ fwht32 v.old }
{
    fwht::fwht(v)
}
