// The listing of a file of the byte form, as text. The first line is
//
//   VERSION DIM WORKING_DIM WIDTH LIVE
//
// in decimal, and each slot has a line
//
//   SLOT KEY HALF
//
// with the key in decimal, `-` where there is none, and the first scale as a half in four digits of upper-case hexadecimal. Of years nothing is put.
// The text of a refused file is its number alone.
#![tactic(auto)]

ghost use Rattle.std.specs.Prelude.{◌≡◌, [], ◌∷◌, ◌++◌, ℕ, ◌%◌, ◌≤◌, ◌<◌, length};
ghost use Rattle.print.specs.Printed.{Prints};
ghost use Rattle.print.specs.Printer.{Printed};
ghost use Rattle.refusal.specs.Refusal.{number_of, fault_of};
ghost use Rattle.slot_keys.specs.Has.{key_at};
ghost use Rattle.index.specs.Step.{first_of};
ghost use Rattle.index.specs.Read.{version_in, count_in, header_in, head_fault, key_from, entries_in, read_refusal};
ghost use Rattle.listed.specs.Listing.{room, next_number, head_line, key_text, upper_digit, half_text, slot_line, refusal_line, half_in, lines_of, text_unless, listing_text};

use index::LentMut;
use print::Printer;
use refusal::Refusal;

// ---- reading

// The refusal of the file; where there is none, the arrays have the keys of its slots. `keys` and `keyed` are two slices, here and below: a struct of the two
// would be made for this file alone, and taken apart here and in `put_key`.
fn read_keys(keys: &mut [u64], keyed: &mut [bool], file: &[u8]) -> Result<(), Refusal>
    requires { (length keys.old ≡ 1024) × (length keyed.old ≡ 1024) }
    ensures refusal { fault_of result ≡ read_refusal file.now room }
    ensures keys_after { fault_of result ≡ 0 → (i : ℕ) → i < count_in file.now → key_at keys.new keyed.new i ≡ key_from (entries_in file.now) i }
{
    let mut codes = [0u8; 32768];
    let mut scales = [0u32; 1024];
    let mut held = [0u32; 1024];
    let mut alive = [0u64; 16];
    let mut codes2 = [0u8; 32768];
    let mut scales2 = [0u32; 1024];
    let mut years = [0u16; 1024];
    let mut arrays = LentMut {
        codes: &mut codes,
        scales: &mut scales,
        keys,
        keyed,
        held: &mut held,
        alive: &mut alive,
        codes2: &mut codes2,
        scales2: &mut scales2,
        years: &mut years,
    };
    read::from_bytes(&mut arrays, file)?;
    Ok(())
}

// The refusal of a file that is too long: that of its head, else 20, since nothing after the head is tested before 20.
#[tactic(auto, unfolding(index::specs::Step::first_of))]
fn long_refusal(file: &[u8]) -> Refusal
    ensures { number_of result ≡ first_of (head_fault file.now ∷ 20 ∷ []) }
{
    match header::check(file) {
        Err(refusal) => refusal,
        Ok(()) => Refusal::TooLarge,
    }
}

// The first scale of a slot as a half: as the file has it, so that a NaN stays as it stands.
fn half_of(file: &[u8], slot: u32) -> u16
    ensures { result ≡ half_in file.now slot }
{
    let scales = header::stages_in(file);
    little_endian::rd_u16(little_endian::after(scales, slot as usize * 2))
}

// ---- lines

fn put_refusal(out: &mut Printer<'_>, refusal: Refusal)
    ensures { Printed (refusal_line (number_of refusal)) out.old out.new }
{
    let number = u8::from(refusal);
    numerals::put_decimal(out, number as u64);
    out.put_byte(b'\n');
}

fn put_next(out: &mut Printer<'_>, n: u64)
    ensures { Printed (next_number n) out.old out.new }
{
    out.put_byte(b' ');
    numerals::put_decimal(out, n);
}

fn put_head(out: &mut Printer<'_>, file: &[u8])
    ensures { Printed (head_line (version_in file.now) (header_in file.now) (count_in file.now)) out.old out.new }
{
    let head = header::head_in(file);
    let header = head.header;
    numerals::put_decimal(out, head.version as u64);
    put_next(out, header.dim as u64);
    put_next(out, header.working_dim as u64);
    put_next(out, header.bits as u64);
    put_next(out, head.count as u64);
    out.put_byte(b'\n');
}

fn put_key(out: &mut Printer<'_>, keys: &[u64], keyed: &[bool], slot: usize)
    ensures { Printed (key_text (key_at keys.now keyed.now slot)) out.old out.new }
{
    if slot_keys::is_keyed(keyed, slot) {
        numerals::put_decimal(out, slot_keys::key_word(keys, slot));
        return;
    }
    out.put_byte(b'-');
}

// The last hexadecimal digit of n, in upper case.
fn last_digit(n: u16) -> u8
    ensures { result ≡ upper_digit (n % 16) }
{
    let digit = (n % 16) as u8;
    if digit < 10 {
        b'0' + digit
    } else {
        b'A' + (digit - 10)
    }
}

// A blank, four digits, and the line's end.
fn put_half(out: &mut Printer<'_>, half: u16)
    ensures { Printed (32 ∷ half_text half ++ (10 ∷ [])) out.old out.new }
{
    let text = [
        b' ',
        last_digit(half / 4096),
        last_digit(half / 256),
        last_digit(half / 16),
        last_digit(half),
        b'\n',
    ];
    out.put_bytes(&text);
}

fn put_slot(out: &mut Printer<'_>, keys: &[u64], keyed: &[bool], slot: u32, half: u16)
    ensures { Printed (slot_line slot (key_at keys.now keyed.now slot) half) out.old out.new }
{
    numerals::put_decimal(out, slot as u64);
    out.put_byte(b' ');
    put_key(out, keys, keyed, slot as usize);
    put_half(out, half);
}

// By slot: its number is printed, and `keys`, `keyed` and the file are read at it.
fn put_slots(out: &mut Printer<'_>, keys: &[u64], keyed: &[bool], file: &[u8])
    ensures { Printed (lines_of file.now (key_at keys.now keyed.now)) out.old out.new }
{
    for slot in 0..header::head_in(file).count {
        put_slot(out, keys, keyed, slot, half_of(file, slot));
    }
}

// ---- the listing

fn put_read(out: &mut Printer<'_>, file: &[u8])
    ensures { Printed (text_unless (read_refusal file.now room) file.now) out.old out.new }
{
    let mut keys = [0u64; 1024];
    let mut keyed = [false; 1024];
    if let Err(refusal) = read_keys(&mut keys, &mut keyed, file) {
        put_refusal(out, refusal);
        return;
    }
    put_head(out, file);
    put_slots(out, &keys, &keyed, file);
}

fn put_text(out: &mut Printer<'_>, file: &[u8])
    ensures { Printed (listing_text file.now) out.old out.new }
{
    if 65536 < file.len() {
        put_refusal(out, long_refusal(file));
        return;
    }
    put_read(out, file);
}

// Puts the text at the front of out and answers the place after it. What has no room is cut off: 65,536 places are enough (`TextFits` of `listed`).
pub fn put_listing(out: &mut [u8], file: &[u8]) -> usize
    ensures { Prints out.old 0 (listing_text file.now) out.new result }
{
    let mut printer = Printer::new(out);
    put_text(&mut printer, file);
    printer.text().len()
}
