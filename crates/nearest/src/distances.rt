// The cascade's distances of the slots in use from a query (document 01, store.rs, cascade). Dead slots get a number above every distance.
ghost use Rattle.std.specs.Prelude.{◌≡◌, true, cond, ◌+◌, ◌*◌, ◌/◌, ◌^◌, ◌≤◌, ◌<◌, length, get_or};
ghost use Rattle.std.specs.Float.{nan};
ghost use Rattle.lists.specs.Lists.{tab, over};
ghost use Rattle.unit.specs.Brought.{query_of};
ghost use Rattle.padding.specs.Rotatable.{rotatable};
ghost use Rattle.marks.specs.Live.{marks_in};
ghost use Rattle.marks.specs.Word.{live_in};
ghost use Rattle.codes.specs.Slots.{block_at};
ghost use Rattle.index.specs.State.{header_of};
ghost use Rattle.nearest.specs.Distances.{past, live_distance};
ghost use Rattle.nearest.specs.Lanes.{top_of, lanes_apart, bytes_apart, slot_apart};
ghost use Rattle.nearest.specs.Pairs.{Low, Split};

use index::Index;

// ---- the query

// Writes the top two bits of the code, by a table, of each of the first `lanes` entries of a prepared query.
// One of the two slices goes by index, here and below: where iter_mut() is zipped, nothing is known after the loop of the entries that were written.
fn write_tops(boundaries: &[f32], query: &[f32], rnorm: f32, lanes: usize, tops: &mut [u8])
    requires { (length boundaries.now ≤ 15) × (lanes ≤ length query.now) × (lanes ≤ length tops.old) }
    ensures { tops.new ≡ over (tab (λ i. top_of boundaries.now rnorm (get_or query.now i nan)) lanes) tops.old }
{
    for (lane, top) in tops[..lanes].iter_mut().enumerate() {
        *top = counting::quantize_in(boundaries, query[lane] * rnorm) as u8 / 4;
    }
}

// Writes each second entry of a query's top bits, from `first` on: those of the even lanes for 0, of the odd lanes for 1.
fn every_second(tops: &[u8], first: usize, n: usize, out: &mut [u8])
    requires { (first ≤ 1) × (n * 2 ≤ length tops.now) × (n ≤ length out.old) }
    ensures { out.new ≡ over (tab (λ i. get_or tops.now (i * 2 + first) 0) n) out.old }
{
    for (i, top) in out[..n].iter_mut().enumerate() {
        *top = tops[i * 2 + first];
    }
}

// A query's top bits: of its first `lanes` lanes, of the even ones and of the odd ones.
#[derive(Clone, Copy)]
struct Tops<'a> {
    all: &'a [u8],
    even: &'a [u8],
    odd: &'a [u8],
    lanes: usize,
    ghost few: { lanes ≤ 4096 },
    ghost room: { lanes ≤ length all.now },
    ghost low: { Low all.now lanes },
    ghost split: { Split all.now even.now odd.now (lanes / 2) },
}

impl Tops<'_> {
    // ---- one slot

    // How far the query's top bits and those of both codes are apart, summed over n bytes of a block. While the sum is a byte itself, the compiler
    // takes 16 bytes at a time: a byte adds at most 6.
    // By index: a zip of the three slices was tried; each has to be cut to the part first, and the proof was five times as long.
    fn few_apart(&self, block: &[u8], from: usize, n: usize) -> u8
        requires { (n ≤ 32) × (from + n ≤ length block.now) × (from + n ≤ self.now.lanes / 2) }
        ensures { bytes_apart self.now.even.now self.now.odd.now block.now from + result ≡
            bytes_apart self.now.even.now self.now.odd.now block.now (from + n) }
    {
        let mut sum: u8 = 0;
        for i in from..from + n {
            let b = block[i];
            sum += self.even[i].abs_diff(b % 16 / 4) + self.odd[i].abs_diff(b / 64);
        }
        sum
    }

    // The same over the first n bytes.
    fn bytes_apart(&self, block: &[u8], n: usize) -> u32
        requires { (n ≤ length block.now) × (n ≤ self.now.lanes / 2) }
        ensures { result ≡ bytes_apart self.now.even.now self.now.odd.now block.now n }
    {
        let mut sum: u32 = 0;
        for part in 0..n / 32 {
            sum += self.few_apart(block, part * 32, 32) as u32;
        }
        sum + self.few_apart(block, n / 32 * 32, n % 32) as u32
    }

    // The sum over the lanes from `from` on, one by one. By index: `unpack_code` takes the lane's number too, and
    // `enumerate().skip(from)` is no plainer.
    fn rest_apart(&self, block: &[u8], from: usize) -> u32
        requires { from ≤ self.now.lanes }
        ensures { lanes_apart self.now.all.now block.now from + result ≡ lanes_apart self.now.all.now block.now self.now.lanes }
    {
        let mut sum: u32 = 0;
        for lane in from..self.lanes {
            sum += self.all[lane].abs_diff(codes::unpack_code(block, lane, 4) / 4) as u32;
        }
        sum
    }

    // How far the query's top bits and those of a block's codes are apart. An odd lane at the end, and lanes past the end of a block, are not in a
    // whole byte.
    fn lanes_apart(&self, block: &[u8]) -> u32
        ensures { result ≡ lanes_apart self.now.all.now block.now self.now.lanes }
    {
        let n = block.len().min(self.lanes / 2);
        self.bytes_apart(block, n) + self.rest_apart(block, n * 2)
    }

    // ---- all slots, by the words of their marks

    // The distances of slots from `first` on, as many as there are places, of which a word has the marks, and whose blocks have `size` bytes.
    // Those of dead slots are written first, all at once: one by one, a cascade over 65,536 slots, 3% of them live, took 1.07 times as long.
    fn write_group(&self, codes: &[u8], live: u64, size: usize, first: usize, distances: &mut [u32])
        requires { (length distances.old ≤ 64) × (first + length distances.old < 2 ^ 64) }
        ensures { distances.new ≡ tab (λ k. cond (live_in live k)
            (lanes_apart self.now.all.now (block_at size (first + k) codes.now) self.now.lanes) past) (length distances.old) }
    {
        distances.fill(12289);
        for (k, distance) in distances.iter_mut().enumerate() {
            if marks::is_set(live, k) {
                *distance = self.lanes_apart(codes::slot_codes(codes, first + k, size));
            }
        }
    }

    fn write_distances(
        &self,
        codes: &[u8],
        alive: &[u64],
        size: usize,
        n: usize,
        distances: &mut [u32],
    )
        requires { n ≤ length distances.old }
        ensures { distances.new ≡ over (tab (slot_apart codes.now (marks_in alive.now) size self.now.all.now self.now.lanes) n) distances.old }
    {
        for group in 0..n.div_ceil(64) {
            let live = marks::word_at(alive, group);
            let first = group * 64;
            let many = (n - first).min(64);
            self.write_group(
                codes,
                live,
                size,
                first,
                &mut distances[first..first + many],
            );
        }
    }
}

fn write_distances(
    codes: &[u8],
    alive: &[u64],
    size: usize,
    n: usize,
    tops: &[u8],
    lanes: usize,
    distances: &mut [u32],
)
    requires { (lanes ≤ 4096) × (lanes ≤ length tops.now) × (Low tops.now lanes) × (n ≤ length distances.old) }
    ensures { distances.new ≡ over (tab (slot_apart codes.now (marks_in alive.now) size tops.now lanes) n) distances.old }
{
    let mut even = [0u8; 2048];
    every_second(tops, 0, lanes / 2, &mut even);
    let mut odd = [0u8; 2048];
    every_second(tops, 1, lanes / 2, &mut odd);
    let split = Tops {
        all: tops,
        even: &even,
        odd: &odd,
        lanes,
    };
    split.write_distances(codes, alive, size, n, distances);
}

// Writes the distance of each live slot in use, and 12,289 for each dead one.
pub(crate) fn live_distances(
    index: Index,
    codes: &[u8],
    alive: &[u64],
    query: &[f32],
    distances: &mut [u32],
)
    requires { (index.n ≤ length distances.old) × (index.bits ≡ 4) × (rotatable index.working_dim (length query.now) 4096 ≡ true) }
    ensures { distances.new ≡ over (tab (live_distance (header_of index) codes.now (marks_in alive.now) (query_of query.now)) index.n)
        distances.old }
{
    let lanes = padding::padded_dim(index.working_dim);
    let size = codes::bytes_per_vector(lanes, 4);
    let mut prepared = [0.0f32; 4096];
    let rnorm = unit::prepare(index.working_dim, index.seed, query, &mut prepared);
    let boundaries = lloyd::boundaries(4);
    let mut tops = [0u8; 4096];
    write_tops(&boundaries[..15], &prepared, rnorm, lanes, &mut tops);
    write_distances(codes, alive, size, index.n, &tops, lanes, distances);
}
