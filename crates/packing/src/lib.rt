// The codes of a vector written into its block of bytes.
#![tactic(auto)]

ghost use Rattle.std.specs.Prelude.{◌≡◌, true, ◌-◌, ◌*◌, ◌/◌, ◌^◌, ◌<◌, ◌≤◌, length, set, take};
ghost use Rattle.lists.specs.Lists.{over};
ghost use Rattle.digits.specs.Digits.{number, digits, Below, digits_below};
ghost use Rattle.codes.specs.Packing.{spare, packed};
ghost use Rattle.codes.specs.Writing.{packable, Packable, repacked, spare_after};

// 2 to the power k. By name: at each use a shift would have to be shown to fit again.
fn power(k: u8) -> u64
    requires { k ≤ 56 }
    ensures { result ≡ 2 ^ k }
{
    1u64 << k
}

// Whether every code is one of this width. All are looked at, without a jump out of the loop: so they can be tested many at a time.
fn all_fit(codes: &[u8], bits: u8) -> bool
    requires { bits ≤ 8 }
    ensures { result ≡ digits_below (2 ^ bits) codes.now }
{
    let base = power(bits) as u16;
    let mut fit = true;
    for code in codes {
        fit &= u16::from(*code) < base;
    }
    fit
}

// Whether these are codes of this width, and a block of so many bytes is theirs.
fn is_packable(bytes: usize, codes: &[u8], bits: u8) -> bool
    ensures { result ≡ packable bits codes.now bytes }
{
    if !codes::is_width(bits) {
        return false;
    }
    bytes == codes::bytes_per_vector(codes.len(), bits) && all_fit(codes, bits)
}

// Up to eight codes as one number, the first in its lowest bits.
fn joined(codes: &[u8], bits: u8) -> u64
    requires { (bits ≤ 8) × (length codes.now ≤ 8) × Below (2 ^ bits) codes.now }
    ensures { result ≡ number (2 ^ bits) codes.now }
{
    let base = power(bits);
    let mut sum = 0u64;
    for code in codes.iter().rev() {
        sum = u64::from(*code) + base * sum;
    }
    sum
}

// A number over all of these bytes, which are at most eight, its lowest byte first.
fn put_number(bytes: &mut [u8], value: u64)
    requires { length bytes.old ≤ 8 }
    ensures { bytes.new ≡ digits 256 (length bytes.old) value }
{
    bytes.copy_from_slice(&value.to_le_bytes()[..bytes.len()]);
}

// Writes the codes as far as they come in eights: eight codes are one number of `bits` bytes.
// By index: where chunks_exact_mut() is zipped with other chunks, nothing is known after the loop of what was written.
// `Packable` stays a clause, here and below: a struct with it as a ghost field would hold the block, which is written, and be made anew for each part.
fn put_eights_at(block: &mut [u8], codes: &[u8], bits: u8)
    requires { Packable bits codes.now (length block.old) }
    ensures { block.new ≡ over (packed bits (take (8 * (length codes.now / 8)) codes.now) 0) block.old }
{
    let w = bits as usize;
    for k in 0..codes.len() / 8 {
        let from = 8 * k;
        let to = from + 8;
        let value = joined(&codes[from..to], bits);
        let start = w * k;
        let end = start + w;
        put_number(&mut block[start..end], value);
    }
}

// The same, with the three widths written out, so that the compiler knows how far it shifts: without them a vector takes 1.6 to 2.3 times the instructions.
fn put_eights(block: &mut [u8], codes: &[u8], bits: u8)
    requires { Packable bits codes.now (length block.old) }
    ensures { block.new ≡ over (packed bits (take (8 * (length codes.now / 8)) codes.now) 0) block.old }
{
    match bits {
        4 => put_eights_at(block, codes, 4),
        5 => put_eights_at(block, codes, 5),
        6 => put_eights_at(block, codes, 6),
        w => put_eights_at(block, codes, w),
    }
}

// Writes the codes that no eight takes, as one number too; what stands above them stays. To read it, the block's bytes are joined as codes of 8 bits.
fn put_rest(block: &mut [u8], codes: &[u8], bits: u8)
    requires codes { Packable bits codes.now (length block.old) }
    requires few { length codes.now < 8 }
    ensures { block.new ≡ packed bits codes.now (spare bits (length codes.now) block.old) }
{
    let place = power(bits * codes.len() as u8);
    let old = joined(block, 8);
    let value = joined(codes, bits) + place * (old / place);
    put_number(block, value);
}

// Writes the codes of a vector over its block: the eights, and the rest; what stands above them stays.
fn put_codes(block: &mut [u8], codes: &[u8], bits: u8)
    requires { Packable bits codes.now (length block.old) }
    ensures { block.new ≡ packed bits codes.now (spare bits (length codes.now) block.old) }
{
    put_eights(block, codes, bits);
    let eights = codes.len() / 8;
    let from = 8 * eights;
    let to = codes.len();
    let start = bits as usize * eights;
    let end = block.len();
    put_rest(&mut block[start..end], &codes[from..to], bits);
}

// Clears the last byte, in which all spare bits lie.
fn clear_last(block: &mut [u8])
    ensures { block.new ≡ set block.old (length block.old - 1) 0 }
{
    if let Some(last) = block.last_mut() {
        *last = 0;
    }
}

// The codes of a vector, into the block of an appended slot, whose spare bits become 0, or over that of an overwritten one, whose spare bits stay.
pub fn pack(codes: &[u8], bits: u8, fresh: bool, block: &mut [u8])
    ensures { block.new ≡
        repacked bits codes.now (spare_after fresh bits (length codes.now) block.old) block.old }
{
    if !is_packable(block.len(), codes, bits) {
        return;
    }
    if fresh {
        clear_last(block);
    }
    put_codes(block, codes, bits);
}
