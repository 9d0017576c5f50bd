// What a field of a line says: a number, a vector or bytes in hexadecimal, each the whole of a field.
// No function here that others call asks anything of its caller.
#![tactic(auto)]

ghost use Rattle.std.specs.Prelude.{◌≡◌, true, ℕ, ◌+◌, ◌*◌, ◌^◌, ◌≤◌, ◌<◌, ltb, length, IfSome, MatchOption};
ghost use Rattle.std.specs.Float.{binary32};
ghost use Rattle.std.specs.Float.Ieee.{of_bits};
ghost use Rattle.std.proofs.Common.{rules};
ghost use Rattle.lists.specs.Lists.{tab, over};
ghost use Rattle.text.specs.Fields.{field_at};
ghost use Rattle.values.specs.Reading.{digit_of, are_digits, value_of, digits_read, leads_with_zero, number_at_most, is_run, run_of, IsRun, element_of, floats_of, bytes_of};

// Field i as a number: 1 to 16 digits, the first of several not 0, of a value of at most `most`.
pub fn number_at(line: &[u8], i: usize, most: u64) -> Option<u64>
    ensures number { result ≡ number_at_most most (field_at line.now i) }
    ensures bound { IfSome result (λ n. n ≤ most) }
{
    read_number(text::field(line, i), most)
}

// Field i as a vector, read into the first places of out, and how many entries it has. Where the field is no vector, or has more entries
// than out, nothing is read. Two names for one function: what a vector and what bytes are is defined apart, and the clauses say it.
pub fn vector_at(line: &[u8], i: usize, out: &mut [f32]) -> Option<usize>
    ensures run { result ≡ run_of 8 (length out.old) (field_at line.now i) }
    ensures read { MatchOption result (out.new ≡ out.old)
        (λ n. out.new ≡ over (floats_of (field_at line.now i) n) out.old) }
    ensures fits { IfSome result (λ n. n ≤ length out.old) }
{
    read_run(text::field(line, i), out)
}

// Field i as bytes, read into the first places of out, and how many there are. Where the field is no run of bytes, or has more than out,
// nothing is read.
pub fn bytes_at(line: &[u8], i: usize, out: &mut [u8]) -> Option<usize>
    ensures run { result ≡ run_of 2 (length out.old) (field_at line.now i) }
    ensures read { MatchOption result (out.new ≡ out.old)
        (λ n. out.new ≡ over (bytes_of (field_at line.now i) n) out.old) }
    ensures fits { IfSome result (λ n. n ≤ length out.old) }
{
    read_run(text::field(line, i), out)
}

// ---- numbers

#[tactic(auto, unfolding(crate::specs::Reading::number_at_most, crate::specs::Reading::is_number))]
fn read_number(field: &[u8], most: u64) -> Option<u64>
    ensures value { result ≡ number_at_most most field.now }
    ensures bound { IfSome result (λ n. n ≤ most) }
{
    if field.is_empty() || 16 < field.len() || leads_with_zero(field) {
        return None;
    }
    let n = value(field)?;
    (n <= most).then_some(n)
}

#[tactic(auto, unfolding(crate::specs::Reading::leads_with_zero))]
fn leads_with_zero(field: &[u8]) -> bool
    ensures { result ≡ leads_with_zero field.now }
{
    matches!(field, [b'0', _, ..])
}

// Hexadecimal digits, in lower case: the test apart from the value, and no Option of it. Each alone the compiler makes without a jump by whether a digit is a
// letter, which is often guessed wrong.
#[tactic(auto, unfolding(crate::specs::Reading::digit_of))]
fn is_digit(b: u8) -> bool
    ensures { result ≡ ltb (digit_of b) 16 }
{
    matches!(b, b'0'..=b'9' | b'a'..=b'f')
}

// The value of a digit; 16 for any other byte.
#[tactic(auto, unfolding(crate::specs::Reading::digit_of))]
fn digit(b: u8) -> u8
    ensures { result ≡ digit_of b }
{
    match b {
        b'0'..=b'9' => b - b'0',
        b'a'..=b'f' => b - b'a' + 10,
        _ => 16,
    }
}

fn are_digits(s: &[u8]) -> bool
    ensures { result ≡ are_digits s.now }
{
    s.iter().all(|b| is_digit(*b))
}

// The number that a run of at most 16 digits stands for.
fn value_of(digits: &[u8]) -> u64
    requires { (are_digits digits.now ≡ true) × (length digits.now ≤ 16) }
    ensures { (result ≡ value_of digits.now) × (result < 16 ^ length digits.now) }
{
    let mut v: u64 = 0;
    for b in digits {
        v = v * 16 + u64::from(digit(*b));
    }
    v
}

// The number that at most 16 bytes stand for, where all are digits.
fn value(digits: &[u8]) -> Option<u64>
    requires { length digits.now ≤ 16 }
    ensures value { result ≡ digits_read digits.now }
    ensures bound { IfSome result (λ v. v < 16 ^ length digits.now) }
{
    if !are_digits(digits) {
        return None;
    }
    Some(value_of(digits))
}

// ---- runs of elements

// What a run has as its elements: numbers of so many digits each.
trait Element {
    const DIGITS: usize;

    ghost DIGITS: { ℕ };

    ghost of_number: { ℕ → Self };

    fn of_number(n: u64) -> Self
        requires { n < 16 ^ DIGITS }
        ensures { result ≡ of_number n };

    ghost width: { (0 < DIGITS) × (DIGITS ≤ 16) };
}

impl Element for u8 {
    const DIGITS: usize = 2;

    ghost DIGITS = { 2 };

    ghost of_number = { λ n. n };

    fn of_number(n: u64) -> u8 {
        n as u8
    }

    ghost width = { Prim.search rules };
}

impl Element for f32 {
    const DIGITS: usize = 8;

    ghost DIGITS = { 8 };

    ghost of_number = { of_bits binary32 };

    fn of_number(n: u64) -> f32 {
        pattern::from_bits(n as u32)
    }

    ghost width = { Prim.search rules };
}

fn read_run<T: Element + Copy>(field: &[u8], out: &mut [T]) -> Option<usize>
    ensures run { result ≡ run_of T.DIGITS (length out.old) field.now }
    ensures read { MatchOption result (out.new ≡ out.old)
        (λ n. out.new ≡ over (tab (λ i. T.of_number (element_of T.DIGITS field.now i)) n) out.old) }
    ensures fits { IfSome result (λ n. n ≤ length out.old) }
{
    let n = run_of(field, T::DIGITS, out.len())?;
    for (i, x) in out[..n].iter_mut().enumerate() {
        *x = T::of_number(number_in(field, T::DIGITS, i));
    }
    Some(n)
}

// How many elements of width digits the field has, where there is room for them.
#[tactic(auto, unfolding(crate::specs::Reading::run_of, crate::specs::Reading::is_dash))]
fn run_of(field: &[u8], width: usize, room: usize) -> Option<usize>
    requires { 0 < width }
    ensures value { result ≡ run_of width room field.now }
    ensures run { IfSome result (IsRun width room field.now) }
{
    if matches!(field, [b'-']) {
        return Some(0);
    }
    is_run(field, width, room).then_some(field.len() / width)
}

#[tactic(auto, unfolding(crate::specs::Reading::is_run))]
fn is_run(field: &[u8], width: usize, room: usize) -> bool
    requires { 0 < width }
    ensures { result ≡ is_run width room field.now }
{
    !field.is_empty()
        && field.len() % width == 0
        && field.len() / width <= room
        && are_digits(field)
}

// The number that element i of a run is, of width digits each.
fn number_in(field: &[u8], width: usize, i: usize) -> u64
    requires { (are_digits field.now ≡ true) × (width ≤ 16) × (width * i + width ≤ length field.now) }
    ensures { (result ≡ element_of width field.now i) × (result < 16 ^ width) }
{
    let from = width * i;
    value_of(&field[from..from + width])
}
