// The square root of a binary32, worked out on whole numbers: the binary32 nearest to the exact root.
#![tactic(auto)]

ghost use Rattle.std.specs.Prelude.{◌≡◌, ◌+◌, ◌*◌, ◌^◌, ◌<◌};
ghost use Rattle.sqrt.specs.Root.{radicand, nearest_root, root_bits, SquareRoot};
ghost use Rattle.sqrt.specs.Work.{Normal, Scaled, WholeRoot};

// The number p * 4^k, where p has 47 or 48 digits: its root is that of p, times 2^k.
#[derive(Drop)]
struct Radicand {
    p: u64,
    k: u32,
}

// m * 2^(23 + e), where m has 24 digits: the factors 2 make 4^k in pairs, 23 of them stay with m, and one more where e is odd.
#[tactic(auto, using(crate::proofs::Scale::paired_is))]
fn paired(m: u32, e: u32) -> Radicand
    requires { Normal m e }
    ensures { Scaled (m * 2 ^ (23 + e)) result.p result.k }
{
    Radicand {
        p: (m as u64) << (23 + e % 2),
        k: e / 2,
    }
}

// The number whose root is that of the value of b, a pattern that is finite and above 0. A subnormal fraction is shifted up until it has 24 digits.
fn radicand_of(b: u32) -> Radicand
    requires { (0 < b) × (b < 0x7F80_0000) }
    ensures { Scaled (radicand b) result.p result.k }
{
    let exponent = b >> 23;
    let fraction = b % 0x80_0000;
    if 0 < exponent {
        return paired(0x80_0000 + fraction, exponent + 125);
    }
    let up = fraction.leading_zeros() - 8;
    paired(fraction << up, 126 - up)
}

// The largest q with q * q <= p, its binary digits found one by one from the highest on.
fn whole_root(p: u64) -> u64
    requires { p < 2 ^ 48 }
    ensures { WholeRoot p result }
{
    let mut q = 0u64;
    for digit in (0..24u32).rev() {
        let next = q + (1 << digit);
        if next * next <= p {
            q = next;
        }
    }
    q
}

// The pattern nearest to the root of the value of b, a pattern that is finite and above 0. The root of p lies from q to q + 1, and the square of their middle is
// q * q + q + 1/4, which p does not equal.
fn positive_root(b: u32) -> u32
    requires { (0 < b) × (b < 0x7F80_0000) }
    ensures { result ≡ nearest_root (radicand b) }
{
    let Radicand { p, k } = radicand_of(b);
    let q = whole_root(p);
    let lower = (k << 23) + (q as u32);
    if q < p - q * q {
        return lower + 1;
    }
    lower
}

// The pattern of the root of any pattern.
#[tactic(auto, unfolding(crate::specs::Root::root_bits))]
fn root_bits(b: u32) -> u32
    ensures { result ≡ root_bits b }
{
    if b % 0x8000_0000 == 0 {
        return b; // a zero, with its sign
    }
    // Past the infinity are the NaNs and everything below 0.
    if 0x7F80_0000 < b {
        return 0x7FC0_0000;
    }
    if b == 0x7F80_0000 {
        return b;
    }
    positive_root(b)
}

// The square root of x: the nearest binary32 where x is finite and above 0; x itself where it is a zero or the infinity; else the NaN.
// By the program itself: document 01 names this form.
pub fn sqrt(x: f32) -> f32
    ensures { SquareRoot x result }
{
    pattern::from_bits(root_bits(pattern::to_bits(x)))
}
