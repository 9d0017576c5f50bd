// Converts a version 1 file, which it reads on standard input, to version 259 on standard output, and tells on the error output how many scales changed. Of a
// file that is turned down it tells `refused` and the number there; what was written is void then. The status is 0, 3 where the file is turned down, and 4 where
// reading or writing fails, the error output too. What a file becomes, and that these bytes are written: `conversion`.
#![tactic(auto)]

ghost use Rattle.std.specs.Prelude.{IfOk, IfSome, OnOk};
ghost use Rattle.std.specs.Io.KnownBytes.{Appends};
ghost use Rattle.std.specs.Process.{exit_status};
ghost use Rattle.convert.specs.Told.{count_text, Told};

use print::Printer;
use std::io;
use std::io::{Read, Write};
use std::process::ExitCode;

fn main(rt: HostRuntime) -> ExitCode {
    let told = run(&mut rt.stdin(), &mut rt.stdout(), &mut rt.stderr());
    told.unwrap_or(ExitCode::from(4))
}

fn run<R: Read, W: Write, E: Write>(
    from: &mut R,
    to: &mut W,
    errors: &mut E,
) -> io::Result<ExitCode>
    ensures { IfOk result (λ code. IfSome (R.remaining from.old) (λ file. Told file (exit_status code)
        (W.contents to.old) (W.contents to.new) (E.contents errors.old) (E.contents errors.new))) }
{
    match conversion::convert(from, to) {
        Ok(changed) => {
            tell_count(errors, changed)?;
            Ok(ExitCode::SUCCESS)
        }
        Err(stopped) => streams::tell(errors, stopped),
    }
}

// A count, and the line's end.
fn tell_count<W: Write>(to: &mut W, n: usize) -> io::Result<()>
    ensures { OnOk result (Appends (W.contents to.old) (W.contents to.new) (count_text n)) }
{
    let mut text = [0u8; 21];
    let mut out = Printer::new(&mut text);
    numerals::put_decimal(&mut out, n as u64);
    out.put_byte(b'\n');
    to.write_all(out.text())
}
