// Version 1 files, with binary32 scales, become files of version 259: functions on the parts of a file, and a whole file as a stream, in constant memory.
// What a file becomes, and which are turned down: specs/Converted.antt.
#![tactic(auto)]

ghost use Rattle.std.specs.Prelude.{◌≡◌, ◌+◌, ◌*◌, ◌/◌, ◌≤◌, min, length, take, IfOk, IfSome, OnOk};
ghost use Rattle.std.specs.Io.KnownBytes.{Appends};
ghost use Rattle.lists.specs.Lists.{over};
ghost use Rattle.refusal.specs.Refusal.{fault_of};
ghost use Rattle.index.specs.Read.{dim_in, count_in};
ghost use Rattle.half.specs.Half.{narrowed};
ghost use Rattle.conversion.specs.Old.{old_block, old_head_fault};
ghost use Rattle.conversion.specs.Scales.{changes, halves_of, changes_in, with_room};
ghost use Rattle.conversion.specs.Converted.{new_head, converted, Whole};
ghost use Rattle.conversion.specs.Stream.{HeadTold, ScalesPassed, Answers};

use little_endian::{after, rd_u16, rd_u32};
use refusal::Refusal;
use std::io;
use std::io::{Read, Write};
use streams::Stopped;

// ---- the head

// The refusal that the first 24 bytes give, or all bytes where there are fewer: 14, 15, 16, 20.
#[tactic(auto, unfolding(index::specs::Step::first_of, crate::specs::Old::old_head_fault, index::specs::Read::little_endian))]
pub fn check_head(head: &[u8]) -> Result<(), Refusal>
    ensures { fault_of result ≡ old_head_fault head.now }
{
    if head.len() < 24 {
        return Err(Refusal::EndsEarly);
    }
    if rd_u32(head) != 0x5143_4556 {
        return Err(Refusal::NotVecq);
    }
    if rd_u16(after(head, 4)) != 1 {
        return Err(Refusal::Version);
    }
    if 4096 < dim_in(head) || 65536 < count_in(head) {
        return Err(Refusal::TooLarge);
    }
    Ok(())
}

fn dim_in(head: &[u8]) -> u32
    ensures { result ≡ dim_in head.now }
{
    rd_u32(after(head, 8))
}

// How many slots the file has.
fn count_in(head: &[u8]) -> u32
    ensures { result ≡ count_in head.now }
{
    rd_u32(after(head, 20))
}

// How many bytes a block of codes takes.
fn block_in(head: &[u8]) -> usize
    ensures { result ≡ old_block head.now }
{
    codes::bytes_per_vector(padding::padded_dim(dim_in(head) as usize), 4)
}

// The head of the new file.
pub fn new_head(head: &[u8; 24]) -> [u8; 24]
    ensures { result ≡ new_head head.now }
{
    let mut new = [0; 24];
    new[..8].copy_from_slice(&[0x56, 0x45, 0x43, 0x51, 3, 1, 0, 0]);
    new[8..].copy_from_slice(&head[8..]);
    new
}

// ---- scales

// Whether a scale that is written as this half changes.
fn is_changed(scale: u32, half: u16) -> bool
    requires { half ≡ narrowed scale }
    ensures { result ≡ changes scale }
{
    half::f16_bits_to_f32(half) != scale
}

// Writes the scales as halves, as many as are whole and have room, and answers how many of these changed.
pub fn narrow_scales(scales: &[u8], halves: &mut [u8]) -> usize
    ensures changed { result ≡ changes_in (with_room scales.now (length halves.old)) }
    ensures written { halves.new ≡ over (halves_of (with_room scales.now (length halves.old))) halves.old }
{
    let n = (scales.len() / 4).min(halves.len() / 2);
    let mut changed = 0;
    for i in 0..n {
        let scale = rd_u32(after(scales, i * 4));
        let half = half::f32_to_f16_bits(scale);
        halves[i * 2..i * 2 + 2].copy_from_slice(&half.to_le_bytes());
        changed += is_changed(scale, half) as usize;
    }
    changed
}

// ---- the file as a stream

// Passes n scales on as halves, and answers how many changed; none where the input ends before the last of them.
fn pass_scales<R: Read, W: Write>(from: &mut R, to: &mut W, n: u32) -> io::Result<Option<usize>>
    ensures { IfOk result (λ changed. IfSome (R.remaining from.old) (λ xs.
        ScalesPassed n changed xs (R.remaining from.new) (W.contents to.old) (W.contents to.new))) }
{
    let n = n as usize;
    let mut scales = [0u8; 65536];
    let mut halves = [0u8; 32768];
    let mut changed = 0;
    let mut done = 0;
    while done < n {
        let most = (n - done).min(16384);
        let Some(more) = pass_chunk(from, to, &mut scales[..most * 4], &mut halves[..most * 2])?
        else {
            return Ok(None);
        };
        changed += more;
        done += most;
    }
    Ok(Some(changed))
}

// The same of as many scales as the first buffer holds. The other one has room for their halves.
fn pass_chunk<R: Read, W: Write>(
    from: &mut R,
    to: &mut W,
    scales: &mut [u8],
    halves: &mut [u8],
) -> io::Result<Option<usize>>
    requires whole { Whole scales.old }
    requires room { length halves.old * 2 ≡ length scales.old }
    ensures few { IfOk result (λ changed. IfSome changed (λ m. m ≤ length scales.old / 4)) }
    ensures bytes { IfOk result (λ changed. IfSome (R.remaining from.old) (λ xs.
        ScalesPassed (length scales.old / 4) changed xs (R.remaining from.new) (W.contents to.old) (W.contents to.new))) }
{
    let came = streams::fill(from, scales)?;
    if came < scales.len() {
        return Ok(None);
    }
    let changed = narrow_scales(scales, halves);
    to.write_all(halves)?;
    Ok(Some(changed))
}

// The first 24 bytes of the file, where its head is sound.
fn read_head<R: Read>(from: &mut R) -> Result<[u8; 24], Stopped>
    ensures sound { IfOk result (λ head. old_head_fault head ≡ 0) }
    ensures told { IfSome (R.remaining from.old) (λ file. HeadTold file result (R.remaining from.new)) }
{
    let mut head = [0u8; 24];
    let came = streams::fill(from, &mut head)?;
    check_head(&head[..came])?;
    Ok(head)
}

// Converts the file that the reader gives, and answers how many scales changed. What was written before a refusal or a failure is void.
pub fn convert<R: Read, W: Write>(from: &mut R, to: &mut W) -> Result<usize, Stopped>
    ensures answers { IfSome (R.remaining from.old) (λ file. Answers file result) }
    ensures written { OnOk result (IfSome (R.remaining from.old) (λ file.
        Appends (W.contents to.old) (W.contents to.new) (converted file))) }
{
    let head = read_head(from)?;
    to.write_all(&new_head(&head))?;
    let count = count_in(&head);
    let Some(changed) = pass_scales(from, to, count)? else {
        return Err(Stopped::from(Refusal::EndsEarly));
    };
    let codes = count as usize * block_in(&head);
    if streams::pass(from, to, codes)? < codes {
        return Err(Stopped::from(Refusal::EndsEarly));
    }
    if dim_in(&head) == 0 {
        return Err(Stopped::from(Refusal::FileDims));
    }
    to.write_all(&[0; 4])?;
    to.flush()?;
    Ok(changed)
}
