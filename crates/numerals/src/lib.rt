// Numbers in digits, printed as `print` does it: what has no room is cut off. No function here asks anything of its caller.
#![tactic(auto)]

ghost use Rattle.std.specs.Prelude.{min, max};
ghost use Rattle.print.specs.Printer.{Printed};
ghost use Rattle.numerals.specs.Numerals.{decimal_text, hexadecimal_text};

use print::Printer;

// The hexadecimal digits of n, with zeros in front up to width digits, at most 16.
pub fn put_hex(out: &mut Printer<'_>, n: u64, width: usize)
    ensures { Printed (hexadecimal_text (min (max width 1) 16) n) out.old out.new }
{
    let mut digits = [0u8; 16];
    let k = io::hex(n, width, &mut digits);
    out.put_bytes(&digits[..k]);
}

// The decimal digits of n.
pub fn put_decimal(out: &mut Printer<'_>, n: u64)
    ensures { Printed (decimal_text n) out.old out.new }
{
    let mut digits = [0u8; 20];
    let k = io::decimal(n, &mut digits);
    out.put_bytes(&digits[..k]);
}
