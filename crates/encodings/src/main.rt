// Runs the encoding of vectors, the preparing of queries, the scores and their order numbers on the lines of standard input, and
// prints one line for each. Lines, numbers, vectors and bytes are written as in the language of the program `exercise`; an answer `?`
// says that the line can't be read.
//
//   encode WIDTH RESIDUAL DIM WORKING SEED VEC
//           what an appended slot stores: `BLOCK SCALE`, where RESIDUAL is 1 `BLOCK SCALE BLOCK2 SCALE2`
//   over WIDTH RESIDUAL DIM WORKING SEED BLOCK BLOCK2 VEC
//           the same written over these blocks, BLOCK2 `-` where RESIDUAL is 0
//   prepare DIM WORKING SEED VEC
//           the norm of the rotated query, and the prepared query
//   score WIDTH DIM WORKING SEED SCALE BLOCK VEC
//   score2 WIDTH DIM WORKING SEED SCALE BLOCK SCALE2 BLOCK2 VEC
//           `score PATTERN`, for a slot that stores this and the query VEC
//   order P
//           the order number of the score with pattern P
//
// WIDTH is 4, 5 or 6, RESIDUAL is 0 or 1, DIM is at most 4,096 and WORKING at most DIM. Scales are patterns, answered in eight digits. A
// vector has at most 4,096 entries and a block at most 4,096 bytes. In the place of each answer but the last may stand `refused N`, with
// document 01's number, in decimal. Tables are those of the width.
#![tactic(auto)]

ghost use Rattle.std.specs.Prelude.{◌≡◌, ◌≤◌, ◌<◌, length, IfSome, IfOk};

use encode::{Header, Scales};
use lines::{Lines, TooLong};
use print::Printer;
use refusal::Refusal;
use score::Scored;
use std::io::Read;

// Each program needs a main of its own; what `exercise` and `leaves` share with it would be a crate for these few lines.
fn main(rt: HostRuntime) {
    let mut reader = rt.stdin();
    // As long as the longest line that is read, 140,000 bytes, and its newline.
    let mut buf = [0u8; 140001];
    // Long enough for the longest answer, that of `prepare`: 4,097 times 8 digits, a blank and a newline.
    let mut out = [0u8; 40000];
    run(
        &mut Lines::new(&mut reader, &mut buf),
        &mut Printer::new(&mut out),
    );
}

// Answers line after line. `leaves` has the same loop: a function for both would take `answer` as a closure, and need a crate for these few lines.
fn run<R: Read>(lines: &mut Lines<'_, R>, out: &mut Printer<'_>)
    ensures { lines.new.left ≡ 0 }
{
    while let Some(found) = lines.next_line() {
        match found {
            Ok(line) => answer(out, lines.bytes(line)),
            Err(TooLong) => out.put_byte(print::UNREADABLE),
        }
        out.print_line();
    }
}

// `leaves` has the same, over answers of its own kind.
fn answer(out: &mut Printer<'_>, line: &[u8]) {
    if text::is_silent(line) {
        return;
    }
    if put_answer(out, line).is_none() {
        out.put_byte(print::UNREADABLE);
    }
}

#[derive(Clone, Copy)]
enum Command {
    Encode,
    Over,
    Prepare,
    Score,
    Score2,
    Order,
}

const COMMANDS: [(&[u8], Command); 6] = [
    (b"encode", Command::Encode),
    (b"over", Command::Over),
    (b"prepare", Command::Prepare),
    (b"score", Command::Score),
    (b"score2", Command::Score2),
    (b"order", Command::Order),
];

// The answer to a line that can be read. Nothing is put where it can't be: the fields are read before the first byte is put.
fn put_answer(out: &mut Printer<'_>, line: &[u8]) -> Option<()> {
    match text::named(&COMMANDS, text::field(line, 0))? {
        Command::Encode => put_encoded(out, line, true)?,
        Command::Over => put_encoded(out, line, false)?,
        Command::Prepare => put_prepared(out, line)?,
        Command::Score => put_scored(out, score(line)?),
        Command::Score2 => put_scored(out, score2(line)?),
        Command::Order => put_order(out, line)?,
    }
    Some(())
}

// `exercise` has one too: a crate of the two lines would be longer.
fn put_refused(out: &mut Printer<'_>, fault: u8) {
    out.put_bytes(b"refused ");
    numerals::put_decimal(out, fault as u64);
}

// ---- encodings

// A line of `encode`, which is fresh, or of `over`: the vector stands in its last field, after the blocks that it is written over.
fn put_encoded(out: &mut Printer<'_>, line: &[u8], fresh: bool) -> Option<()> {
    let last = if fresh { 6 } else { 8 };
    let header = header_at(line, last + 1)?;
    let mut v = [0.0f32; 4096];
    let n = values::vector_at(line, last, &mut v)?;
    let mut block = [0u8; 4096];
    let length = block_at(line, 6, fresh, header, &mut block)?;
    let mut block2 = [0u8; 4096];
    let length2 = block_at(line, 7, fresh, header, &mut block2)?;
    put_encoding(
        out,
        header,
        fresh,
        &v[..n],
        &mut block[..length],
        &mut block2[..length2],
    );
    Some(())
}

// Where a block is fresh, as many zeros as it has; else the bytes in field i.
fn block_at(line: &[u8], i: usize, fresh: bool, header: Header, block: &mut [u8]) -> Option<usize>
    ensures { IfSome result (λ n. n ≤ length block.old) }
{
    if fresh {
        return Some(block_length(header, block.len()));
    }
    values::bytes_at(line, i, block)
}

// How long a block is; a header that can be read has none of over 3,072 bytes.
fn block_length(header: Header, most: usize) -> usize
    ensures { result ≤ most }
{
    let n = codes::bytes_per_vector(padding::padded_dim(header.working_dim), header.bits);
    if n <= most { n } else { 0 }
}

fn put_encoding(
    out: &mut Printer<'_>,
    header: Header,
    fresh: bool,
    v: &[f32],
    block: &mut [u8],
    block2: &mut [u8],
) {
    if let Err(refusal) = vectors::check(header.dim, header.working_dim, v) {
        put_refused(out, u8::from(refusal));
        return;
    }
    let s = encode_by_width(header, fresh, v, block, block2);
    put_slot(out, header.residual, s, block, block2);
}

// The encoding by the tables of the width. There is one boundary fewer than there are centroids. `place` has the like for the record of an index.
// One function for both would stand in `encode`, which takes any table and chooses none (docs/DECISIONS.md, "One place chooses the table").
fn encode_by_width(
    header: Header,
    fresh: bool,
    v: &[f32],
    block: &mut [u8],
    block2: &mut [u8],
) -> Scales {
    let n = levels(header.bits);
    let boundaries = lloyd::boundaries(header.bits);
    let centroids = lloyd::centroids(header.bits);
    encode::encode(
        header,
        fresh,
        &boundaries[..n - 1],
        &centroids[..n],
        v,
        block,
        block2,
    )
}

fn put_slot(out: &mut Printer<'_>, residual: bool, s: Scales, block: &[u8], block2: &[u8]) {
    put_stage(out, block, s.scale);
    if residual {
        out.put_byte(b' ');
        put_stage(out, block2, s.scale2);
    }
}

fn put_stage(out: &mut Printer<'_>, block: &[u8], scale: u32) {
    runs::put_run(out, block);
    out.put_byte(b' ');
    numerals::put_hex(out, scale as u64, 8);
}

// ---- queries

fn put_prepared(out: &mut Printer<'_>, line: &[u8]) -> Option<()> {
    let mut q = [0.0f32; 4096];
    match query_at(line, 1, 4, &mut q)? {
        Ok(x) => put_query(out, x.rnorm, &q[..x.length]),
        Err(refusal) => put_refused(out, u8::from(refusal)),
    }
    Some(())
}

fn put_query(out: &mut Printer<'_>, rnorm: f32, q: &[f32]) {
    put_float(out, rnorm);
    out.put_byte(b' ');
    runs::put_vector(out, q);
}

fn put_float(out: &mut Printer<'_>, x: f32) {
    numerals::put_hex(out, pattern::to_bits(x) as u64, 8);
}

// A prepared query: the norm before it was scaled, and how many entries it has.
#[derive(Clone, Copy)]
struct Query {
    rnorm: f32,
    length: usize,
}

// The query in the last field of a line, refused or prepared in the first places of q. What it is prepared by stands from field `from` on.
fn query_at(line: &[u8], from: usize, last: usize, q: &mut [f32]) -> Option<Result<Query, Refusal>>
    requires { (from ≤ 3) × (last ≤ 9) }
    ensures { IfSome result (λ r. IfOk r (λ x. x.length ≤ length q.old)) }
{
    let space = space_at(line, last + 1, from)?;
    let mut v = [0.0f32; 4096];
    let n = values::vector_at(line, last, &mut v)?;
    prepare(space, &v[..n], q)
}

fn prepare(space: Space, v: &[f32], q: &mut [f32]) -> Option<Result<Query, Refusal>>
    ensures { IfSome result (λ r. IfOk r (λ x. x.length ≤ length q.old)) }
{
    if let Err(refusal) = vectors::check(space.dim, space.working, v) {
        return Some(Err(refusal));
    }
    let length = padding::padded_dim(space.working);
    if q.len() < length {
        return None;
    }
    let rnorm = unit::prepare(space.working, space.seed, v, q);
    Some(Ok(Query { rnorm, length }))
}

// ---- scores

// A line of `score`, which has its query in its last field.
fn score(line: &[u8]) -> Option<Scored> {
    let width = width_at(line, 1)?;
    let mut q = [0.0f32; 4096];
    let query = query_at(line, 2, 7, &mut q)?;
    let mut block = [0u8; 4096];
    let a = stage_at(line, 5, &mut block)?;
    match query {
        Ok(x) => Some(score_by_width(width, &q[..x.length], a.scale, &block[..a.length])),
        Err(refusal) => Some(Scored::Refused(u8::from(refusal))),
    }
}

fn score_by_width(width: u8, q: &[f32], scale: u32, block: &[u8]) -> Scored {
    let n = levels(width);
    let centroids = lloyd::centroids(width);
    scoring::score(width, &centroids[..n], q, scale, block)
}

// A line of `score2`: two stages, and then the query. A function beside `score`, as crate scoring has one for each: a second stage needs places for its block.
fn score2(line: &[u8]) -> Option<Scored> {
    let width = width_at(line, 1)?;
    let mut q = [0.0f32; 4096];
    let query = query_at(line, 2, 9, &mut q)?;
    let mut block = [0u8; 4096];
    let a = stage_at(line, 5, &mut block)?;
    let mut block2 = [0u8; 4096];
    let b = stage_at(line, 7, &mut block2)?;
    match query {
        Ok(x) => Some(score2_by_width(
            width,
            &q[..x.length],
            a.scale,
            &block[..a.length],
            b.scale,
            &block2[..b.length],
        )),
        Err(refusal) => Some(Scored::Refused(u8::from(refusal))),
    }
}

fn score2_by_width(
    width: u8,
    q: &[f32],
    scale: u32,
    block: &[u8],
    scale2: u32,
    block2: &[u8],
) -> Scored {
    let n = levels(width);
    let centroids = lloyd::centroids(width);
    scoring::score_residual(width, &centroids[..n], q, scale, block, scale2, block2)
}

fn put_scored(out: &mut Printer<'_>, s: Scored) {
    match s {
        Scored::Score(x) => put_score(out, x),
        Scored::Refused(n) => put_refused(out, n),
    }
}

fn put_score(out: &mut Printer<'_>, x: f32) {
    out.put_bytes(b"score ");
    put_float(out, x);
}

fn put_order(out: &mut Printer<'_>, line: &[u8]) -> Option<()> {
    if text::field_count(line) != 2 {
        return None;
    }
    let p = values::number_at(line, 1, 0xFFFF_FFFF)?;
    let order = scoring::order_number(pattern::from_bits(p as u32));
    numerals::put_hex(out, order as u64, 1);
    Some(())
}

// ---- the fields of a line

// What a vector is rotated by.
#[derive(Clone, Copy)]
struct Space {
    dim: usize,
    working: usize,
    seed: u64,
}

// A scale, and the length of its block.
#[derive(Clone, Copy)]
struct Stage {
    scale: u32,
    length: usize,
}

// How many codes a width has; 1 where it is no width, so that its tables have parts.
fn levels(width: u8) -> usize
    ensures { (0 < result) × (result ≤ 64) }
{
    lloyd::levels(width).max(1)
}

// The header of a line of count fields, from field 1 on.
fn header_at(line: &[u8], count: usize) -> Option<Header> {
    let bits = width_at(line, 1)?;
    let residual = values::number_at(line, 2, 1)?;
    let space = space_at(line, count, 3)?;
    Some(Header {
        dim: space.dim,
        working_dim: space.working,
        seed: space.seed,
        bits,
        residual: residual == 1,
    })
}

fn width_at(line: &[u8], i: usize) -> Option<u8> {
    let width = values::number_at(line, i, 6)?;
    (4 <= width).then_some(width as u8)
}

// DIM, WORKING and SEED from field i on, in a line of count fields.
fn space_at(line: &[u8], count: usize, i: usize) -> Option<Space>
    requires { i ≤ 3 }
{
    if text::field_count(line) != count {
        return None;
    }
    let dim = values::number_at(line, i, 4096)?;
    let working = values::number_at(line, i + 1, dim)?;
    let seed = values::number_at(line, i + 2, u64::MAX)?;
    Some(Space {
        dim: dim as usize,
        working: working as usize,
        seed,
    })
}

// The scale in field i, and the block in the field after it.
fn stage_at(line: &[u8], i: usize, block: &mut [u8]) -> Option<Stage>
    requires { i ≤ 7 }
    ensures { IfSome result (λ a. a.length ≤ length block.old) }
{
    let scale = values::number_at(line, i, 0xFFFF_FFFF)?;
    let length = values::bytes_at(line, i + 1, block)?;
    Some(Stage {
        scale: scale as u32,
        length,
    })
}
