// The head of a file: its fields, and the tests of the first 24 or 25 bytes.
#![tactic(auto)]

ghost use Rattle.std.specs.Prelude.{◌≡◌};
ghost use Rattle.refusal.specs.Refusal.{fault_of};
ghost use Rattle.index.specs.Read.{version_in, form_in, dim_in, working_field, header_in, stages_in, head_fault};
ghost use Rattle.header.specs.Head.{head_of};

use encode::Header;
use index::Form;
use little_endian::{after, rd_u8, rd_u16, rd_u32, rd_u64};
use refusal::Refusal;

// What the head of a file states.
#[derive(Drop)]
pub struct Head {
    pub version: u16,
    pub header: Header,
    pub count: u32,
}

// ---- fields

fn version_in(file: &[u8]) -> u16
    ensures { result ≡ version_in file.now }
{
    rd_u16(after(file, 4))
}

// What the file's version has.
fn form_in(file: &[u8]) -> Form
    ensures { result ≡ form_in file.now }
{
    form::form_of(version_in(file))
}

fn dim_in(file: &[u8]) -> u32
    ensures { result ≡ dim_in file.now }
{
    rd_u32(after(file, 8))
}

// The field of working_dim; 0 where the version ignores it.
fn working_field(file: &[u8]) -> u32
    ensures { result ≡ working_field file.now }
{
    if form_in(file).working {
        u32::from(rd_u16(after(file, 6)))
    } else {
        0
    }
}

// The header that the file states.
#[tactic(auto, unfolding(index::specs::Read::header_in))]
fn header_in(file: &[u8]) -> Header
    ensures { result ≡ header_in file.now }
{
    let form = form_in(file);
    let dim = dim_in(file) as usize;
    Header {
        dim,
        working_dim: match working_field(file) {
            0 => dim,
            working => working as usize,
        },
        seed: rd_u64(after(file, 12)),
        bits: if form.width {
            rd_u8(after(file, 24))
        } else {
            4
        },
        residual: form.second,
    }
}

pub fn head_in(file: &[u8]) -> Head
    ensures { result ≡ head_of file.now }
{
    Head {
        version: version_in(file),
        header: header_in(file),
        count: rd_u32(after(file, 20)),
    }
}

// What follows the head.
pub fn stages_in(file: &[u8]) -> &[u8]
    ensures { result.now ≡ stages_in file.now }
{
    let form = form_in(file);
    after(file, form::stages_at(form))
}

// ---- tests

// The refusal that the head gives: 14 to 18.
#[tactic(auto, unfolding(index::specs::Step::first_of, index::specs::Read::head_fault, index::specs::Read::little_endian))]
pub fn check(file: &[u8]) -> Result<(), Refusal>
    ensures { fault_of result ≡ head_fault file.now }
{
    if file.len() < 24 {
        return Err(Refusal::EndsEarly);
    }
    if rd_u32(file) != 0x5143_4556 {
        return Err(Refusal::NotVecq);
    }
    let form = form_in(file);
    if !form.known {
        return Err(Refusal::Version);
    }
    if dim_in(file) < working_field(file) {
        return Err(Refusal::FileDims);
    }
    if file.len() < form::stages_at(form) {
        return Err(Refusal::EndsEarly);
    }
    if !(4..=6).contains(&header_in(file).bits) {
        return Err(Refusal::FileWidth);
    }
    Ok(())
}
