// Runs of numbers in hexadecimal, printed as `print` does it: what has no room is cut off. No function here asks anything of its caller.
#![tactic(auto)]

ghost use Rattle.std.specs.Prelude.{◌≡◌, ℕ, ◌^◌, ◌≤◌, ◌<◌, cond};
ghost use Rattle.std.specs.Float.{binary32};
ghost use Rattle.std.specs.Float.Ieee.{to_bits};
ghost use Rattle.std.proofs.Common.{rules};
ghost use Rattle.print.specs.Printer.{Printed};
ghost use Rattle.runs.specs.Runs.{run_text};

use print::Printer;

// What is printed as a number, always in as many hexadecimal digits.
pub trait InHex {
    const DIGITS: usize;

    ghost DIGITS: { ℕ };

    ghost number: { Self → ℕ };

    fn number(self) -> u64
        ensures value { result ≡ number self }
        ensures small { result < 16 ^ DIGITS };

    ghost width: { (0 < DIGITS) × (DIGITS ≤ 16) };
}

impl InHex for f32 {
    const DIGITS: usize = 8;

    ghost DIGITS = { 8 };

    ghost number = { to_bits binary32 };

    fn number(self) -> u64 {
        pattern::to_bits(self) as u64
    }

    ghost width = { Prim.search rules };
}

impl InHex for u8 {
    const DIGITS: usize = 2;

    ghost DIGITS = { 2 };

    ghost number = { λ n. n };

    fn number(self) -> u64 {
        self as u64
    }

    ghost width = { Prim.search rules };
}

impl InHex for u16 {
    const DIGITS: usize = 4;

    ghost DIGITS = { 4 };

    ghost number = { λ n. n };

    fn number(self) -> u64 {
        self as u64
    }

    ghost width = { Prim.search rules };
}

impl InHex for u32 {
    const DIGITS: usize = 8;

    ghost DIGITS = { 8 };

    ghost number = { λ n. n };

    fn number(self) -> u64 {
        self as u64
    }

    ghost width = { Prim.search rules };
}

impl InHex for u64 {
    const DIGITS: usize = 16;

    ghost DIGITS = { 16 };

    ghost number = { λ n. n };

    fn number(self) -> u64 {
        self
    }

    ghost width = { Prim.search rules };
}

impl InHex for bool {
    const DIGITS: usize = 1;

    ghost DIGITS = { 1 };

    ghost number = { λ b. cond b 1 0 };

    fn number(self) -> u64 {
        self as u64
    }

    ghost width = { Prim.search rules };
}

// A vector: the patterns of its entries in eight digits each, run together; `-` where it has none. Two names for one function: the clauses say of each what
// its digits are.
pub fn put_vector(out: &mut Printer<'_>, v: &[f32])
    ensures { Printed (run_text 8 (to_bits binary32) v.now) out.old out.new }
{
    put_each(out, v);
}

// A run of bytes: two digits each, run together; `-` where there is none.
pub fn put_run(out: &mut Printer<'_>, bytes: &[u8])
    ensures { Printed (run_text 2 (λ b. b) bytes.now) out.old out.new }
{
    put_each(out, bytes);
}

fn put_each<T: InHex + Copy>(out: &mut Printer<'_>, xs: &[T])
    ensures { Printed (run_text T.DIGITS T.number xs.now) out.old out.new }
{
    if xs.is_empty() {
        out.put_byte(b'-');
        return;
    }
    for x in xs {
        numerals::put_hex(out, x.number(), T::DIGITS);
    }
}
