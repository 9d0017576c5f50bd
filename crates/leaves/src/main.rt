// Runs the leaves of the index on the lines of standard input, and prints one line for each. Lines, numbers and vectors are written
// as in the language of the program `exercise`; an answer `?` says that the line can't be read.
//
//   half H             the binary32 pattern that a half reads as, in eight digits
//   narrow P           the half nearest to a binary32 pattern, in four digits
//   sqrt P             the pattern of the root, in eight digits
//   signs SEED N       the first N signs, at most 4,096, as + and -
//   padded DIM         the padded size
//   fwht VEC           the vector, transformed
//   apply DIM SEED VEC the vector, padded, signed and transformed; DIM is at most 4,096
//   levels W           how many codes a width has
//   quantize W P       the code of the value with pattern P
//   dequantize W C     the pattern of a code's centroid, in eight digits
//   halves FROM TO     the answers of `half` from FROM up to TO, run together; at most 4,096
//   narrows FROM TO    answers of `narrow`, run together, at patterns around the halves from FROM up to TO; at most 4,096 halves
//
// For a half that is finite `narrows` has six answers: at the pattern p that it reads as, at p - 1 and p + 1, and at the pattern m
// of the value midway to the next half of its sign, m - 1 and m + 1. (Past the largest finite half, 65,504, the next is taken to be
// 65,536.) For an infinity it has those at p, p - 1 and p + 1, for a NaN the one at p. Patterns are counted modulo 2^32.
#![tactic(auto)]

ghost use Rattle.std.specs.Prelude.{◌≡◌, ◌≤◌, ◌<◌, IfSome};

use lines::{Lines, TooLong};
use print::Printer;
use rhdh::Rhdh;
use signs::SignStream;
use std::io::Read;

// Each program needs a main of its own; what `encodings` and `exercise` share with it would be a crate for these few lines.
fn main(rt: HostRuntime) {
    let mut reader = rt.stdin();
    // As long as the longest line that is read, 140,000 bytes, and its newline.
    let mut buf = [0u8; 140001];
    // Long enough for the longest answer, that of `narrows`: 4,096 times 24 digits, and a newline.
    let mut out = [0u8; 131072];
    run(
        &mut Lines::new(&mut reader, &mut buf),
        &mut Printer::new(&mut out),
    );
}

// Answers line after line. `encodings` has the same loop, and says why.
fn run<R: Read>(lines: &mut Lines<'_, R>, out: &mut Printer<'_>)
    ensures { lines.new.left ≡ 0 }
{
    while let Some(found) = lines.next_line() {
        match found {
            Ok(line) => answer(out, lines.bytes(line)),
            Err(TooLong) => out.put_byte(print::UNREADABLE),
        }
        out.print_line();
    }
}

// `encodings` has the same, over answers of its own kind.
fn answer(out: &mut Printer<'_>, line: &[u8]) {
    if text::is_silent(line) {
        return;
    }
    if put_answer(out, line).is_none() {
        out.put_byte(print::UNREADABLE);
    }
}

#[derive(Clone, Copy)]
enum Command {
    Half,
    Narrow,
    Sqrt,
    Padded,
    Levels,
    Quantize,
    Dequantize,
    Signs,
    Halves,
    Narrows,
    Fwht,
    Apply,
}

const COMMANDS: [(&[u8], Command); 12] = [
    (b"half", Command::Half),
    (b"narrow", Command::Narrow),
    (b"sqrt", Command::Sqrt),
    (b"padded", Command::Padded),
    (b"levels", Command::Levels),
    (b"quantize", Command::Quantize),
    (b"dequantize", Command::Dequantize),
    (b"signs", Command::Signs),
    (b"halves", Command::Halves),
    (b"narrows", Command::Narrows),
    (b"fwht", Command::Fwht),
    (b"apply", Command::Apply),
];

// The answer to a line that can be read. Nothing is put where it can't be: the fields are read before the first byte is put.
fn put_answer(out: &mut Printer<'_>, line: &[u8]) -> Option<()> {
    match text::named(&COMMANDS, text::field(line, 0))? {
        Command::Half => {
            let h = one(line, 0xFFFF)?;
            put_pattern(out, half::f16_bits_to_f32(h as u16));
        }
        Command::Narrow => {
            let p = one(line, 0xFFFF_FFFF)?;
            numerals::put_hex(out, narrow(p as u32), 4);
        }
        Command::Sqrt => {
            let p = one(line, 0xFFFF_FFFF)?;
            put_float(out, sqrt::sqrt(pattern::from_bits(p as u32)));
        }
        Command::Padded => {
            let dim = one(line, u64::MAX)?;
            put_number(out, padding::padded_dim(dim as usize) as u64);
        }
        Command::Levels => {
            let width = one(line, 0xFF)?;
            put_number(out, lloyd::levels(width as u8) as u64);
        }
        Command::Quantize => {
            let (width, p) = two(line, 3, 0xFF, 0xFFFF_FFFF)?;
            let code = quantizer::quantize(pattern::from_bits(p as u32), width as u8);
            put_number(out, code as u64);
        }
        Command::Dequantize => {
            let (width, code) = two(line, 3, 0xFF, 0xFF)?;
            put_float(out, dequantizer::dequantize(code as u8, width as u8));
        }
        Command::Signs => {
            let (seed, n) = two(line, 3, u64::MAX, 4096)?;
            put_signs(out, seed, n);
        }
        Command::Halves => {
            let (from, to) = range(line)?;
            put_halves(out, from, to);
        }
        Command::Narrows => {
            let (from, to) = range(line)?;
            put_narrows(out, from, to);
        }
        Command::Fwht => put_fwht(out, line)?,
        Command::Apply => put_applied(out, line)?,
    }
    Some(())
}

// ---- the numbers of a line

// The one number of the line, at most `most`.
fn one(line: &[u8], most: u64) -> Option<u64>
    ensures { IfSome result (λ a. a ≤ most) }
{
    if text::field_count(line) != 2 {
        return None;
    }
    values::number_at(line, 1, most)
}

// The first two numbers of a line that has count fields.
fn two(line: &[u8], count: usize, most_a: u64, most_b: u64) -> Option<(u64, u64)>
    ensures { IfSome result (λ x. (x.0 ≤ most_a) × (x.1 ≤ most_b)) }
{
    if text::field_count(line) != count {
        return None;
    }
    let a = values::number_at(line, 1, most_a)?;
    let b = values::number_at(line, 2, most_b)?;
    Some((a, b))
}

// Two numbers of at most 65,536, the second at most 4,096 above the first and not below it.
fn range(line: &[u8]) -> Option<(u64, u64)>
    ensures { IfSome result (λ x. x.1 ≤ 65536) }
{
    let (from, to) = two(line, 3, 0x10000, 0x10000)?;
    (from..=from + 4096).contains(&to).then_some((from, to))
}

// ---- commands that answer with one number

fn put_number(out: &mut Printer<'_>, n: u64) {
    numerals::put_hex(out, n, 1);
}

fn put_pattern(out: &mut Printer<'_>, p: u32) {
    numerals::put_hex(out, p as u64, 8);
}

fn put_float(out: &mut Printer<'_>, x: f32) {
    put_pattern(out, pattern::to_bits(x));
}

// ---- commands that answer with a run

fn put_signs(out: &mut Printer<'_>, seed: u64, n: u64) {
    let mut stream = SignStream::new(seed);
    for _ in 0..n {
        out.put_byte(sign_byte(stream.next_sign()));
    }
}

fn sign_byte(sign: f32) -> u8 {
    if sign < 0.0 { b'-' } else { b'+' }
}

fn put_halves(out: &mut Printer<'_>, from: u64, to: u64)
    requires { to ≤ 65536 }
{
    for h in from..to {
        numerals::put_hex(out, half::f16_bits_to_f32(h as u16) as u64, 8);
    }
}

fn put_narrows(out: &mut Printer<'_>, from: u64, to: u64)
    requires { to ≤ 65536 }
{
    for h in from..to {
        put_narrows_of(out, h as u16);
    }
}

fn put_narrows_of(out: &mut Printer<'_>, h: u16) {
    let p = half::f16_bits_to_f32(h);
    let magnitude = h % 0x8000;
    if 0x7C00 < magnitude {
        numerals::put_hex(out, narrow(p), 4);
        return;
    }
    numerals::put_hex(out, around(p), 12);
    if magnitude < 0x7C00 {
        numerals::put_hex(out, around(midpoint(h)), 12);
    }
}

fn narrow(p: u32) -> u64
    ensures { result < 65536 }
{
    half::f32_to_f16_bits(p) as u64
}

// The halves at p, p - 1 and p + 1, as one number of twelve digits.
fn around(p: u32) -> u64 {
    let before = narrow(p.wrapping_sub(1));
    let after = narrow(p.wrapping_add(1));
    (narrow(p) * 65536 + before) * 65536 + after
}

// The pattern midway from a finite half to the next of its sign. From one half to the next the values are as evenly spaced as
// their binary32 patterns, but for the step from 0, whose middle is 2^-25, and for that to 65,536, which has no half.
fn midpoint(h: u16) -> u32 {
    let p = half::f16_bits_to_f32(h);
    let magnitude = h % 0x8000;
    if magnitude == 0 {
        return p.wrapping_add(0x3300_0000);
    }
    if 0x7BFF <= magnitude {
        return p.wrapping_add(0x1000);
    }
    let next = half::f16_bits_to_f32(h + 1);
    ((p as u64 + next as u64) / 2) as u32
}

// The vector of the line, transformed.
fn put_fwht(out: &mut Printer<'_>, line: &[u8]) -> Option<()> {
    if text::field_count(line) != 2 {
        return None;
    }
    let mut v = [0.0f32; 4096];
    let n = values::vector_at(line, 1, &mut v)?;
    fwht::fwht(&mut v[..n]);
    runs::put_vector(out, &v[..n]);
    Some(())
}

// The vector of the line, rotated by its size and its seed.
fn put_applied(out: &mut Printer<'_>, line: &[u8]) -> Option<()> {
    let (dim, seed) = two(line, 4, 4096, u64::MAX)?;
    let mut v = [0.0f32; 4096];
    let n = values::vector_at(line, 3, &mut v)?;
    let rotation = Rhdh::new(dim as usize, seed);
    let padded = rotation.padded;
    if 4096 < padded {
        return None;
    }
    let mut w = [0.0f32; 4096];
    rotation.apply(&v[..n], &mut w[..padded]);
    runs::put_vector(out, &w[..padded]);
    Some(())
}
