// The codes of a vector, packed into a block of bytes from the lowest bit on: read, and a slot's block found among those of all slots.
#![tactic(auto)]

ghost use Rattle.std.specs.Prelude.{◌≡◌, ◌+◌, ◌*◌, ◌/◌, ◌%◌, ◌^◌, ◌≤◌, leb, get_or};
ghost use Rattle.codes.specs.Packing.{bytes_per_vector, code_at};
ghost use Rattle.codes.specs.Writing.{is_width, at_width};
ghost use Rattle.codes.specs.Slots.{block_at};

// A code is 1 to 8 bits wide.
#[tactic(auto, unfolding(crate::specs::Writing::is_width))]
pub fn is_width(bits: u8) -> bool
    ensures { result ≡ is_width bits }
{
    (1..=8).contains(&bits)
}

// How many bytes the codes of one vector take; 0 at any other width. Eight codes take `bits` bytes: counted so, no product
// can overflow.
pub fn bytes_per_vector(padded: usize, bits: u8) -> usize
    ensures { result ≡ at_width bits (bytes_per_vector bits padded) }
{
    if !is_width(bits) {
        return 0;
    }
    let w = bits as usize;
    padded / 8 * w + (padded % 8 * w).div_ceil(8)
}

// The byte in which code i begins.
fn first_byte(i: usize, bits: u8) -> usize
    requires { bits ≤ 8 }
    ensures { result ≡ bits * i / 8 }
{
    let w = bits as usize;
    i / 8 * w + i % 8 * w / 8
}

// The bit of that byte at which code i begins.
fn first_bit(i: usize, bits: u8) -> u8
    requires { bits ≤ 8 }
    ensures { result ≡ bits * i % 8 }
{
    (i % 8) as u8 * bits % 8
}

// Byte b and the next one as one number: a code that begins in byte b lies in it whole. A byte past the end counts as 0.
fn window(block: &[u8], b: usize) -> u16
    ensures { result ≡ get_or block.now b 0 + 256 * get_or block.now (b + 1) 0 }
{
    match block.get(b..) {
        Some([low, high, ..]) => u16::from_le_bytes([*low, *high]),
        Some([low]) => u16::from(*low),
        _ => 0,
    }
}

// Code i of a block; 0 past the block's end and at any other width.
pub fn unpack_code(block: &[u8], i: usize, bits: u8) -> u8
    ensures { result ≡ at_width bits (code_at bits block.now i) }
{
    if !is_width(bits) {
        return 0;
    }
    let from = window(block, first_byte(i, bits)) >> first_bit(i, bits);
    (from % (1 << bits)) as u8
}

// Whether an array of n bytes has the block of a slot whole. By a multiplication: by `n / bytes`, a cascade over blocks of 32 bytes took 1.1 times as long.
fn has_block(n: usize, slot: usize, bytes: usize) -> bool
    ensures { result ≡ leb (slot * bytes + bytes) n }
{
    match slot.checked_mul(bytes) {
        Some(start) => bytes <= n && start <= n - bytes,
        None => false,
    }
}

// The block of a slot, uncopied; an empty part where the array does not have it whole. Document 01 names this form.
pub fn slot_codes(codes: &[u8], slot: usize, bytes: usize) -> &[u8]
    ensures { result.now ≡ block_at bytes slot codes.now }
{
    if !has_block(codes.len(), slot, bytes) {
        return &codes[0..0];
    }
    let start = slot * bytes;
    let end = start + bytes;
    &codes[start..end]
}
