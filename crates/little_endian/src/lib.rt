// The numbers that the bytes of a file make, the lowest byte first.
#![tactic(auto)]

ghost use Rattle.std.specs.Prelude.{◌≡◌, ℕ, ◌≤◌, ◌<◌, get_or, drop};
ghost use Rattle.index.specs.Read.{little_endian};

// The bytes from `at` on; none past the end.
pub fn after(bytes: &[u8], at: usize) -> &[u8]
    ensures { result.now ≡ drop at bytes.now }
{
    bytes.get(at..).unwrap_or(&[])
}

// A byte; 0 past the end.
fn byte_at(bytes: &[u8], i: usize) -> u8
    ensures { result ≡ get_or bytes.now i 0 }
{
    bytes.get(i).copied().unwrap_or(0)
}

// The first N bytes; 0 past the end. Where all N are there they are read at once, else one by one: with a copy of unknown length the libraries for C would need
// memcpy from outside.
fn first<const N: usize>(bytes: &[u8]) -> [u8; N]
    requires { N ≤ 8 }
    ensures { (i : ℕ) → i < N → get_or result i 0 ≡ get_or bytes.now i 0 }
{
    if let Some(head) = bytes.first_chunk::<N>() {
        return *head;
    }
    let mut head = [0; N];
    for (i, byte) in head.iter_mut().enumerate() {
        *byte = byte_at(bytes, i);
    }
    head
}

#[tactic(auto, unfolding(index::specs::Read::little_endian))]
pub fn rd_u8(bytes: &[u8]) -> u8
    ensures { result ≡ little_endian 1 bytes.now }
{
    bytes.first().copied().unwrap_or(0)
}

pub fn rd_u16(bytes: &[u8]) -> u16
    ensures { result ≡ little_endian 2 bytes.now }
{
    u16::from_le_bytes(first(bytes))
}

pub fn rd_u32(bytes: &[u8]) -> u32
    ensures { result ≡ little_endian 4 bytes.now }
{
    u32::from_le_bytes(first(bytes))
}

pub fn rd_u64(bytes: &[u8]) -> u64
    ensures { result ≡ little_endian 8 bytes.now }
{
    u64::from_le_bytes(first(bytes))
}
