// The scores of stages (store.rs, the scalar kernels). A prepared query is rotated and has the padded size; every float operation
// stands where the Rust has it.
#![tactic(auto)]

ghost use Rattle.std.specs.Prelude.{◌≡◌, ℕ, ◌+◌, ◌*◌, ◌/◌, ◌%◌, ◌^◌, ◌≤◌, ◌<◌, length, take, drop, get_or, set};
ghost use Rattle.std.specs.Float.{nan};
ghost use Rattle.pattern.specs.Binary32.{◌⊕◌, sum_of};
ghost use Rattle.lists.specs.Lists.{tab};
ghost use Rattle.codes.specs.Packing.{bytes_per_vector};
ghost use Rattle.codes.specs.Stage.{stage};
ghost use Rattle.score.specs.Lanes.{lanes};
ghost use Rattle.score.specs.Score.{raw_sums, block_products, byte_terms, fitting, raw_of_block, stage_score};

// Whether a table, a block and a query of such lengths fit one another at this width.
#[tactic(auto, unfolding(score::specs::Score::fitting))]
fn fitting(bits: u8, centroids: usize, block: usize, query: usize) -> bool
    ensures { result ≡ fitting bits centroids block query }
{
    if !(4..=6).contains(&bits) {
        return false;
    }
    centroids == 1usize << bits && block == codes::bytes_per_vector(query, bits)
}

// A block, with a table and a query that fit it.
#[derive(Clone, Copy, Drop)]
struct Block<'a> {
    bits: u8,
    centroids: &'a [f32],
    codes: &'a [u8],
    query: &'a [f32],
    ghost from: { 4 ≤ bits },
    ghost to: { bits ≤ 6 },
    ghost table: { length centroids.now ≡ 2 ^ bits },
    ghost bytes: { (i : ℕ) → get_or codes.now i 0 < 256 },
    ghost size: { length codes.now ≡ bytes_per_vector bits (length query.now) },
}

// Four running sums with one term more, which lane i modulo 4 takes.
fn wide_step(mut acc: [f32; 4], term: f32, i: usize) -> [f32; 4]
    ensures { result ≡ set acc (i % 4) (get_or acc (i % 4) nan ⊕ term) }
{
    acc[i % 4] += term;
    acc
}

impl<'a> Block<'a> {
    // What byte i of a block of 4 bits a code adds: the low code's product and the high code's. The width is a clause here and below: a second struct, of a block
    // whose `bits` is 4, would be longer.
    fn byte_term(&self, i: usize) -> f32
        requires width { self.now.bits ≡ 4 }
        requires inside { i < length self.now.query.now / 2 }
        ensures { result ≡ get_or (byte_terms self.now.centroids.now self.now.codes.now self.now.query.now) i nan }
    {
        let b = self.codes[i];
        let low = (b % 16) as usize;
        let high = (b / 16) as usize;
        let c = i * 2;
        self.query[c] * self.centroids[low] + self.query[c + 1] * self.centroids[high]
    }

    // Eight running sums with eight bytes more, lane j taking byte i + j. Lane by lane is the form that the paper names.
    fn byte_step(&self, acc: [f32; 8], i: usize) -> [f32; 8]
        requires width { self.now.bits ≡ 4 }
        requires inside { i + 8 ≤ length self.now.query.now / 2 }
        ensures { result ≡ tab (λ j. get_or acc j nan
            ⊕ get_or (byte_terms self.now.centroids.now self.now.codes.now self.now.query.now) (i + j) nan) 8 }
    {
        [
            acc[0] + self.byte_term(i),
            acc[1] + self.byte_term(i + 1),
            acc[2] + self.byte_term(i + 2),
            acc[3] + self.byte_term(i + 3),
            acc[4] + self.byte_term(i + 4),
            acc[5] + self.byte_term(i + 5),
            acc[6] + self.byte_term(i + 6),
            acc[7] + self.byte_term(i + 7),
        ]
    }

    // The eight running sums over all groups of eight bytes.
    fn byte_lanes(&self) -> [f32; 8]
        requires { self.now.bits ≡ 4 }
        ensures { result ≡ lanes 8 (take (length self.now.query.now / 2 / 8 * 8)
            (byte_terms self.now.centroids.now self.now.codes.now self.now.query.now)) }
    {
        let mut acc = [0.0f32; 8];
        for group in 0..self.query.len() / 2 / 8 {
            let next = self.byte_step(acc, group * 8);
            acc = next;
        }
        acc
    }

    // The tail: the sum over the bytes past the groups of eight. By index, here and in `wide_lanes`: a byte has two codes, or
    // `unpack_code` finds one, so codes and query can't be zipped item by item.
    fn byte_tail(&self) -> f32
        requires { self.now.bits ≡ 4 }
        ensures { result ≡ sum_of (drop (length self.now.query.now / 2 / 8 * 8)
            (byte_terms self.now.centroids.now self.now.codes.now self.now.query.now)) }
    {
        let bytes = self.query.len() / 2;
        let mut tail = 0.0f32;
        for i in bytes / 8 * 8..bytes {
            tail += self.byte_term(i);
        }
        tail
    }

    // Entry i of the query times its code's centroid.
    fn product(&self, i: usize) -> f32
        requires { i < length self.now.query.now }
        ensures { result ≡ get_or (block_products self.now.bits self.now.centroids.now
            self.now.codes.now self.now.query.now) i nan }
    {
        let code = codes::unpack_code(self.codes, i, self.bits);
        self.query[i] * self.centroids[code as usize]
    }

    // The four running sums over all products.
    fn wide_lanes(&self) -> [f32; 4]
        ensures { result ≡ lanes 4 (block_products self.now.bits self.now.centroids.now
            self.now.codes.now self.now.query.now) }
    {
        let mut acc = [0.0f32; 4];
        for i in 0..self.query.len() {
            let next = wide_step(acc, self.product(i), i);
            acc = next;
        }
        acc
    }

    // The raw score by the width (`score_raw_dispatch`, without the vector instructions): at 4 bits by the bytes (`score_scalar`), and
    // a single code's product by itself; at 5 and 6 bits by the codes (`score_wide_scalar`).
    fn raw_score(&self) -> f32
        ensures { result ≡ raw_sums self.now.bits (block_products self.now.bits self.now.centroids.now
            self.now.codes.now self.now.query.now) }
    {
        if self.bits != 4 {
            return folds::fold_four(self.wide_lanes());
        }
        if self.query.len() == 1 {
            return self.product(0);
        }
        folds::fold_eight(self.byte_lanes()) + self.byte_tail()
    }
}

// The raw score of a block; +0 where block, query and table don't fit one another.
fn raw_score(bits: u8, centroids: &[f32], codes: &[u8], query: &[f32]) -> f32
    ensures { result ≡ raw_of_block bits centroids.now codes.now query.now }
{
    if !fitting(bits, centroids.len(), codes.len(), query.len()) {
        return 0.0;
    }
    let block = Block {
        bits,
        centroids,
        codes,
        query,
    };
    block.raw_score()
}

// The score of one stage. The scale is a pattern, since a float can't hold what a NaN's pattern says.
#[tactic(auto, unfolding(score::specs::Score::stage_score))]
pub fn stage_score(bits: u8, centroids: &[f32], query: &[f32], scale: u32, block: &[u8]) -> f32
    ensures { result ≡ stage_score bits centroids.now query.now (stage scale block.now) }
{
    raw_score(bits, centroids, block, query) * pattern::from_bits(scale)
}
