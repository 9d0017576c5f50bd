// From a vector to the codes and scales that a slot stores: `encode_into` of vecq's store.rs. Tables are lent: any table will do.
#![tactic(auto)]

ghost use Rattle.std.specs.Prelude.{◌≡◌, ◌≤◌, length};
ghost use Rattle.pattern.specs.Binary32.{sum_squares, larger};
ghost use Rattle.codes.specs.Packing.{packed};
ghost use Rattle.codes.specs.Writing.{spare_after};
ghost use Rattle.codes.specs.Stage.{stage};
ghost use Rattle.unit.specs.Brought.{item_of};
ghost use Rattle.lloyd.specs.Quantizer.{decoded};
ghost use Rattle.encode.specs.Coding.{table, coded, dequantized, plain, packed_stage};
ghost use Rattle.encode.specs.Encode.{floor, differences, dot, root_mean_square, scaled, residual, first_scale, second_scale};
ghost use Rattle.encode.specs.Calls.{codable, Fits, stages, spares_after, stored_both, encodable, encoded_into};

// What fixes how a vector is coded, and stays while slots are in use.
#[derive(Clone, Copy)]
pub struct Header {
    pub dim: usize,
    pub working_dim: usize,
    pub seed: u64,
    pub bits: u8,
    pub residual: bool,
}

// The scales of a slot as binary32 patterns. The second is that of the residual codes, and 0 where there are none:
// an Option would add a case that `residual` tells already.
#[derive(Clone, Copy)]
pub struct Scales {
    pub scale: u32,
    pub scale2: u32,
}

// ---- one stage

// Whether a table of so many boundaries, so many codes and a block of so many bytes fit one another at this width.
fn is_codable(bits: u8, boundaries: usize, codes: usize, block: usize) -> bool
    ensures { result ≡ codable bits boundaries codes block }
{
    if !codes::is_width(bits) {
        return false;
    }
    if 1usize << bits <= boundaries {
        return false;
    }
    codes <= 4096 && block == codes::bytes_per_vector(codes, bits)
}

// The centroid of each code. What is written goes by index, here and in `subtract`: of what a zipped iter_mut() lends nothing is known after the loop.
// In `subtract` `ys` is read by the same index: `xs.iter().zip(ys).enumerate()` is no plainer.
fn decode(centroids: &[f32], codes: &[u8], out: &mut [f32])
    requires { length out.old ≡ length codes.now }
    ensures { out.new ≡ decoded centroids.now codes.now }
{
    for (i, code) in codes.iter().enumerate() {
        out[i] = dequantizer::dequantize_in(centroids, usize::from(*code));
    }
}

// How each stage of a vector is coded: the table that is lent, the width of its codes, and whether the slot is an appended one.
#[derive(Clone, Copy)]
struct Coder<'a> {
    boundaries: &'a [f32],
    centroids: &'a [f32],
    bits: u8,
    fresh: bool,
}

impl Coder<'_> {
    // One stage: the codes of xs into the block, and the centroids that they stand for in d. The sum of squares isn't needed here.
    // `Fits` is a clause, here and below: it is of the vector and the block too, which each call has of its own.
    fn store(&self, xs: &[f32], d: &mut [f32], block: &mut [u8])
        requires codable { Fits self.now.bits (length self.now.boundaries.now) (length xs.now) (length block.old) }
        requires d_len { length d.old ≡ length xs.now }
        ensures values { d.new ≡ dequantized (table self.now.boundaries.now self.now.centroids.now) xs.now }
        ensures block { block.new ≡ packed self.now.bits (coded self.now.boundaries.now xs.now)
            (spare_after self.now.fresh self.now.bits (length xs.now) block.old) }
    {
        let mut all = [0u8; 4096];
        let codes = &mut all[..xs.len()];
        quantizer::quantize_summing(self.boundaries, self.centroids, xs, codes);
        packing::pack(codes, self.bits, self.fresh, block);
        decode(self.centroids, codes, d);
    }

    // A plain index: the codes of a rotated vector into the block of a slot. The result is the scale's pattern. The centroids are needed for their sum of
    // squares only.
    fn encode_plain(&self, rotated: &[f32], block: &mut [u8]) -> u32
        requires { Fits self.now.bits (length self.now.boundaries.now) (length rotated.now) (length block.old) }
        ensures { stage result block.new
            ≡ packed_stage self.now.bits (spare_after self.now.fresh self.now.bits (length rotated.now) block.old)
            (plain (table self.now.boundaries.now self.now.centroids.now) rotated.now) }
    {
        let mut all = [0u8; 4096];
        let codes = &mut all[..rotated.len()];
        let sum = quantizer::quantize_summing(self.boundaries, self.centroids, rotated, codes);
        packing::pack(codes, self.bits, self.fresh, block);
        let norm = sqrt::sqrt(sum);
        pattern::to_bits(1.0 / norm)
    }

    // A residual index: the codes of a rotated vector, and those of what they leave of it, into the blocks of a slot.
    fn encode_residual(&self, rotated: &[f32], block: &mut [u8], block2: &mut [u8]) -> Scales
        requires codable { Fits self.now.bits (length self.now.boundaries.now) (length rotated.now) (length block.old) }
        requires block2_len { length block2.old ≡ length block.old }
        ensures { stages result block.new block2.new
            ≡ stored_both self.now.bits (spares_after self.now.fresh self.now.bits (length rotated.now) block.old block2.old)
            (residual (table self.now.boundaries.now self.now.centroids.now) rotated.now) }
    {
        let n = rotated.len();
        let mut firsts = [0.0f32; 4096];
        let mut rests = [0.0f32; 4096];
        let mut seconds = [0.0f32; 4096];
        let d = &mut firsts[..n];
        let rest = &mut rests[..n];
        let e = &mut seconds[..n];
        self.store(rotated, d, block);
        let rms = scale_rest(rotated, d, rest);
        self.store(rest, e, block2);
        residual_scales(d, e, rms)
    }
}

// ---- a residual index

// What two vectors sum up to: the squares of the first, the products of both, the squares of the second.
#[derive(Drop)]
struct ThreeSums {
    first: f32,
    cross: f32,
    second: f32,
}

// The three sums, each in index order. In one loop, since an addition waits for the one before it in its own sum only.
fn sum_up(d: &[f32], e: &[f32]) -> ThreeSums
    requires { length e.now ≡ length d.now }
    ensures first { result.first ≡ sum_squares d.now }
    ensures cross { result.cross ≡ dot d.now e.now }
    ensures second { result.second ≡ sum_squares e.now }
{
    let mut first = 0.0f32;
    let mut cross = 0.0f32;
    let mut second = 0.0f32;
    for (x, y) in d.iter().zip(e) {
        first = first + *x * *x;
        cross = cross + *x * *y;
        second = second + *y * *y;
    }
    ThreeSums {
        first,
        cross,
        second,
    }
}

fn subtract(xs: &[f32], ys: &[f32], out: &mut [f32])
    requires { (length ys.now ≡ length xs.now) × (length out.old ≡ length xs.now) }
    ensures { out.new ≡ differences xs.now ys.now }
{
    for (i, x) in xs.iter().enumerate() {
        out[i] = *x - ys[i];
    }
}

// The larger of x and 1e-12, and 1e-12 for a NaN. By tests: the library's `max` says its result only where the two are unequal.
fn at_least_floor(x: f32) -> f32
    ensures { result ≡ larger x floor }
{
    if x.is_nan() {
        return 1e-12;
    }
    if x < 1e-12 {
        return 1e-12;
    }
    x
}

fn root_mean_square(xs: &[f32]) -> f32
    requires { length xs.now ≤ 4096 }
    ensures { result ≡ root_mean_square xs.now }
{
    let sum = vectors::sum_squares(xs);
    sqrt::sqrt(at_least_floor(sum / xs.len() as f32))
}

// What d leaves of the rotated vector, over its root mean square, which is the result.
fn scale_rest(rotated: &[f32], d: &[f32], e: &mut [f32]) -> f32
    requires rotated_len_bound { length rotated.now ≤ 4096 }
    requires d_len { (length d.now ≡ length rotated.now) × (length e.old ≡ length rotated.now) }
    ensures rms { result ≡ root_mean_square (differences rotated.now d.now) }
    ensures rest { e.new ≡ scaled (differences rotated.now d.now) }
{
    subtract(rotated, d, e);
    let rms = root_mean_square(e);
    vectors::divide(e, rms);
    rms
}

// The scales of a residual slot from the centroids of its first codes, those of its second codes, and the root mean square by which the second were scaled.
// They are over the norm of d + rms * e.
fn residual_scales(d: &[f32], e: &[f32], rms: f32) -> Scales
    requires { length e.now ≡ length d.now }
    ensures first { result.scale ≡ first_scale rms d.now e.now }
    ensures second { result.scale2 ≡ second_scale rms d.now e.now }
{
    let s = sum_up(d, e);
    let root = sqrt::sqrt(s.first);
    let norm_sq = s.first + 2.0 * rms * s.cross + rms * rms * s.second;
    let denom = sqrt::sqrt(at_least_floor(norm_sq));
    let scale0 = 1.0 / root;
    Scales {
        scale: pattern::to_bits(scale0 * root / denom),
        scale2: pattern::to_bits(rms / denom),
    }
}

// ---- a whole vector

// Whether a vector of so many entries can be coded as the header says, into blocks of so many bytes.
fn is_encodable(
    header: Header,
    boundaries: usize,
    entries: usize,
    block: usize,
    block2: usize,
) -> bool
    ensures { result ≡ encodable header boundaries entries block block2 }
{
    if !padding::is_rotatable(header.working_dim, entries, 4096) {
        return false;
    }
    let padded = padding::padded_dim(header.working_dim);
    if !is_codable(header.bits, boundaries, padded, block) {
        return false;
    }
    !header.residual || block2 == block
}

// What a slot stores of a vector, into its blocks, with the scales' patterns as the result: `fresh` for an appended slot, else over the old codes.
pub fn encode(
    header: Header,
    fresh: bool,
    boundaries: &[f32],
    centroids: &[f32],
    v: &[f32],
    block: &mut [u8],
    block2: &mut [u8],
) -> Scales
    ensures { stages result block.new block2.new
        ≡ encoded_into (table boundaries.now centroids.now) header
        fresh (item_of v.now) block.old block2.old }
{
    if !is_encodable(header, boundaries.len(), v.len(), block.len(), block2.len()) {
        return Scales {
            scale: 0,
            scale2: 0,
        };
    }
    let mut all = [0.0f32; 4096];
    let rotated = &mut all[..padding::padded_dim(header.working_dim)];
    unit::rotate(header.working_dim, header.seed, v, rotated);
    let coder = Coder {
        boundaries,
        centroids,
        bits: header.bits,
        fresh,
    };
    if header.residual {
        return coder.encode_residual(rotated, block, block2);
    }
    Scales {
        scale: coder.encode_plain(rotated, block),
        scale2: 0,
    }
}
