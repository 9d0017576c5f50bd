// Halves: binary32 patterns written as binary16 patterns, and these read as binary32 patterns. No float takes part, since a float here has one NaN
// only, and a NaN's sign and fraction are to be kept. Document 01 names the forms: leading zeros to read, an i32 exponent to write.
#![tactic(auto)]

ghost use Rattle.std.specs.Prelude.{◌≡◌, ◌^◌, ◌<◌};
ghost use Rattle.std.specs.Float.Ieee.Nearest.{closest};
ghost use Rattle.half.specs.Half.{Narrowed, Widened};

// m / 2^s to the nearest whole number, a tie to the even one.
fn nearest(m: u32, s: u32) -> u32
    requires { (0 < s) × (s < 32) }
    ensures { result ≡ closest m (2 ^ s) }
{
    let q = m >> s;
    let rest = m - (q << s);
    let half = 1u32 << (s - 1);
    if rest < half {
        return q;
    }
    if half < rest {
        return q + 1;
    }
    q + (q & 1)
}

// The binary32 pattern that a half reads as: of the same value. A NaN keeps its sign and its fraction, moved up 13 places.
pub fn f16_bits_to_f32(h: u16) -> u32
    ensures { Widened h result }
{
    let sign = ((h >> 15) as u32) << 31;
    let exp = ((h >> 10) & 0x1F) as u32;
    let frac = (h & 0x3FF) as u32;
    if exp == 0x1F {
        return sign | 0x7F80_0000 | (frac << 13);
    }
    if 0 < exp {
        // The biases of the two exponents, 127 and 15, differ by 112.
        return sign | ((exp + 112) << 23) | (frac << 13);
    }
    if frac == 0 {
        return sign;
    }
    // A subnormal half. Of the 32 digits the ten last are the fraction's; the zeros among these above the highest that is set, plus one, shift this one to
    // bit 10, the place of a leading one, which binary32 does not store.
    let zeros = u32::leading_zeros(frac) - 22;
    let shift = zeros + 1;
    let rest = (frac << shift) & 0x3FF;
    sign | ((113 - shift) << 23) | (rest << 13)
}

// The half that a binary32 pattern is written as: the nearest, a tie to the even one. A NaN keeps only its sign.
pub fn f32_to_f16_bits(x: u32) -> u16
    ensures { Narrowed x result }
{
    let sign = ((x >> 16) & 0x8000) as u16;
    let exp = ((x >> 23) & 0xFF) as i32;
    let frac = x & 0x7F_FFFF;
    if exp == 0xFF {
        if frac == 0 {
            return sign | 0x7C00;
        }
        return sign | 0x7E00;
    }
    let e = exp - 127;
    if 15 < e {
        return sign | 0x7C00;
    }
    let m = frac | 0x80_0000;
    if -14 <= e {
        // The leading one of the rounded significand adds one to the exponent's field, and a rounding up to 2^11 adds two: from 65520 on that gives
        // the infinity.
        let above = (e + 14) as u32;
        return sign | (((above << 10) + nearest(m, 13)) as u16);
    }
    // Below 2^-14 the half is subnormal, a whole number of 2^-24. The last place of m is 2^(e - 23), so -e - 1 places are dropped. Where that is more
    // than 24 the value is less than half of 2^-24. A subnormal x, which has no leading one, is among these.
    let shift = (-e - 1) as u32;
    if 24 < shift {
        return sign;
    }
    sign | (nearest(m, shift) as u16)
}
