// For programs that copy a file from a reader to a writer and change a part of it: what they change is read into a buffer, and the rest is passed on
// through a buffer of one size, however long the file is. No public function here asks anything of its caller. A clause on bytes holds where the reader
// and the writer know theirs: of standard input and output no contract can say it.
#![tactic(auto)]

ghost use Rattle.std.specs.Prelude.{◌≡◌, ◌≢◌, ◌≤◌, length, IfOk, IfErr, IfSome, OnOk};
ghost use Rattle.std.specs.Io.{ReadsAtMost};
ghost use Rattle.std.specs.Io.KnownBytes.{ReadConsumes, Appends};
ghost use Rattle.std.specs.IoError.{error_kind};
ghost use Rattle.print.specs.Printer.{Printed};
ghost use Rattle.refusal.specs.Refusal.{number_of};
ghost use Rattle.std.specs.Process.{exit_status};
ghost use Rattle.streams.specs.Streams.{Filled, Passed, refused_text, IfRefused, status_of};

use print::Printer;
use refusal::Refusal;
use std::io;
use std::io::{ErrorKind, Read, Write};
use std::process::ExitCode;

// Why a program that copies a file stops before its end: it turns the file down, or a read or a write fails.
#[derive(Drop)]
pub enum Stopped {
    Refused(Refusal),
    Failed(io::Error),
}

impl From<Refusal> for Stopped {
    ghost use Rattle.streams.specs.declared.Stopped.TheVariants.{Refused};

    ghost from_gives = { λ refusal stopped. stopped ≡ Refused refusal };

    fn from(refusal: Refusal) -> Stopped {
        Stopped::Refused(refusal)
    }
}

impl From<io::Error> for Stopped {
    ghost use Rattle.streams.specs.declared.Stopped.TheVariants.{Failed};

    ghost from_gives = { λ error stopped. stopped ≡ Failed error };

    fn from(error: io::Error) -> Stopped {
        Stopped::Failed(error)
    }
}

// Reads until the buffer is full or the input has ended, and answers how many bytes came. A read that a signal cuts short is tried again; where one fails,
// nothing says how many bytes came before it.
pub fn fill<R: Read>(from: &mut R, buf: &mut [u8]) -> io::Result<usize>
    ensures within { ReadsAtMost result buf.new }
    ensures bytes { IfOk result (λ got. IfSome (R.remaining from.old) (λ xs. Filled buf.new got xs (R.remaining from.new))) }
    ensures retried { IfErr result (λ e. error_kind e ≢ ErrorKind.Interrupted) }
{
    let mut got = 0;
    while got < buf.len() {
        let more = read_some(from, &mut buf[got..])?;
        if more == 0 {
            return Ok(got);
        }
        got += more;
    }
    Ok(got)
}

// One read. Nothing says that the signals end, so the tries are counted, up to a number that no run uses up, and after the last one it has timed out.
fn read_some<R: Read>(from: &mut R, buf: &mut [u8]) -> io::Result<usize>
    ensures within { ReadsAtMost result buf.new }
    ensures bytes { ReadConsumes (R.remaining from.old) (R.remaining from.new) result buf.new }
    ensures retried { IfErr result (λ e. error_kind e ≢ ErrorKind.Interrupted) }
{
    for _ in 0..u64::MAX {
        match from.read(buf) {
            Ok(n) => return Ok(n),
            Err(e) => {
                if e.kind() != ErrorKind::Interrupted {
                    return Err(e);
                }
            }
        }
    }
    Err(io::Error::from(ErrorKind::TimedOut))
}

// Copies the next n bytes, or all that come where there are fewer, and answers how many these were. With pieces much shorter than 65,536 bytes most of
// the time would go into the calls.
pub fn pass<R: Read, W: Write>(from: &mut R, to: &mut W, n: usize) -> io::Result<usize>
    ensures within { IfOk result (λ came. came ≤ n) }
    ensures bytes { IfOk result (λ came. IfSome (R.remaining from.old) (λ xs.
        Passed n came xs (R.remaining from.new) (W.contents to.old) (W.contents to.new))) }
{
    let mut buf = [0u8; 65536];
    let mut came = 0;
    while came < n {
        let most = buf.len().min(n - came);
        let more = pass_piece(from, to, &mut buf[..most])?;
        came += more;
        if more < most {
            return Ok(came);
        }
    }
    Ok(came)
}

// Copies as many bytes as the buffer holds, or all that come where there are fewer.
fn pass_piece<R: Read, W: Write>(from: &mut R, to: &mut W, buf: &mut [u8]) -> io::Result<usize>
    ensures within { IfOk result (λ came. came ≤ length buf.new) }
    ensures bytes { IfOk result (λ came. IfSome (R.remaining from.old) (λ xs.
        Passed (length buf.new) came xs (R.remaining from.new) (W.contents to.old) (W.contents to.new))) }
{
    let came = fill(from, buf)?;
    to.write_all(&buf[..came])?;
    Ok(came)
}

// The line of a program that turns its file down.
pub fn put_refused(out: &mut Printer<'_>, refusal: Refusal)
    ensures { Printed (refused_text (number_of refusal)) out.old out.new }
{
    out.put_bytes(b"refused ");
    numerals::put_decimal(out, u8::from(refusal) as u64);
    out.put_byte(b'\n');
}

// Writes why a program has stopped, and answers its status: 3 where it turned its file down, 4 where a read or a write failed.
pub fn tell<W: Write>(to: &mut W, stopped: Stopped) -> io::Result<ExitCode>
    ensures status { IfOk result (λ code. exit_status code ≡ status_of stopped) }
    ensures text { OnOk result (IfRefused stopped (λ refusal.
        Appends (W.contents to.old) (W.contents to.new) (refused_text (number_of refusal)))) }
{
    match stopped {
        Stopped::Refused(refusal) => {
            tell_refused(to, refusal)?;
            Ok(ExitCode::from(3))
        }
        Stopped::Failed(error) => {
            writeln!(to, "{error}")?;
            Ok(ExitCode::from(4))
        }
    }
}

fn tell_refused<W: Write>(to: &mut W, refusal: Refusal) -> io::Result<()>
    ensures { OnOk result (Appends (W.contents to.old) (W.contents to.new) (refused_text (number_of refusal))) }
{
    let mut text = [0u8; 32];
    let mut out = Printer::new(&mut text);
    put_refused(&mut out, refusal);
    to.write_all(out.text())
}
