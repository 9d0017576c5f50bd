// The scores of one stage of all marked slots: `score_scalar` and `score_wide_scalar` of vecq's store.rs over many slots, with the same
// sums in the same order.
//
// Two centroids are read at once, from a table of all pairs of codes. The running sums of a group of slots are stored, and folded in a
// second loop: folded at once, they would not stay in vector registers.
#![tactic(auto)]

ghost use Rattle.std.specs.Prelude.{◌≡◌, true, cond, ℕ, ◌||◌, ◌+◌, ◌-◌, ◌*◌, ◌/◌, ◌%◌, ◌^◌, ◌≤◌, ◌<◌, length, take, drop, get_or};
ghost use Rattle.std.specs.Float.{nan, binary32};
ghost use Rattle.std.specs.Float.Ieee.{of_bits};
ghost use Rattle.pattern.specs.Binary32.{◌⊕◌, ◌⊗◌};
ghost use Rattle.std.proofs.lemmas.List.Edits.{sets};
ghost use Rattle.lists.specs.Lists.{tab};
ghost use Rattle.marks.specs.Live.{marks_in, live_at};
ghost use Rattle.marks.specs.Word.{Lives};
ghost use Rattle.digits.specs.Digits.{number, Below};
ghost use Rattle.scan.specs.Scan.{stage_of, score_after, score_now, scanned};
ghost use Rattle.scan.specs.Pairs.{Paired, Halved, byte_term, word_product};
ghost use Rattle.scan.specs.Groups.{part_at, byte_lanes, wide_lanes, raw_by, score_by, raw_from, Summed, Raw, Rescored, Grouped};

// A stage's slots, the first n of which are scored, and what they are scored by. For a second stage a score is added to what stands there.
#[derive(Clone, Copy, Drop)]
struct Stage<'a> {
    bits: u8,
    centroids: &'a [f32],
    query: &'a [f32],
    size: usize,
    codes: &'a [u8],
    scales: &'a [u32],
    marks: &'a [u64],
    n: usize,
    second: bool,
    ghost bytes: { Below 256 codes.now },
    ghost fits: { n < 2 ^ 64 },
}

// A stage that can be scored by groups of slots, with tables made once for all of them: its arrays have n slots whole.
#[derive(Clone, Copy, Drop)]
struct Tabled<'a> {
    of: Stage<'a>,
    evens: &'a [f32],
    odds: &'a [f32],
    pairs: &'a [f32],
    ghost from: { 4 ≤ of.bits },
    ghost to: { of.bits ≤ 6 },
    ghost groups: { length of.query.now % 16 ≡ 0 },
    ghost block: { of.size ≡ length of.query.now / 8 * of.bits },
    ghost codes_there: { of.n * of.size ≤ length of.codes.now },
    ghost scales_there: { of.n ≤ length of.scales.now },
    ghost evens_there: { length of.query.now / 2 ≤ length evens.now },
    ghost odds_there: { length of.query.now / 2 ≤ length odds.now },
    ghost pairs_there: { 8192 ≤ length pairs.now },
}

// The running sums of two blocks. Two at once take turns with the adder, which one alone would wait for.
#[derive(Drop)]
struct Two {
    one: [f32; 4],
    other: [f32; 4],
}

// ---- the tables

// For each number x of two codes the centroid of the low one, in place 2 * x, and that of the high one, in the place after it.
// By index: a turn writes two places, here and in `halve`. Of what chunks_exact_mut() lends, or a zipped iter_mut(), nothing is known after the loop.
fn fill_pairs(bits: u8, centroids: &[f32], pairs: &mut [f32])
    requires { (bits ≤ 6) × (length centroids.now ≡ 2 ^ bits) × (2 ^ bits * 2 ^ bits * 2 ≤ length pairs.old) }
    ensures { Paired bits centroids.now pairs.new (2 ^ bits * 2 ^ bits) }
{
    let levels = 1usize << bits;
    for x in 0..levels * levels {
        pairs[x * 2] = centroids[x % levels];
        pairs[x * 2 + 1] = centroids[x / levels];
    }
}

// The entries of the query at even places, and those at odd ones.
fn halve(query: &[f32], evens: &mut [f32], odds: &mut [f32])
    requires { (length query.now / 2 ≤ length evens.old) × (length query.now / 2 ≤ length odds.old) }
    ensures { Halved query.now evens.new odds.new (length query.now / 2) }
{
    for i in 0..query.len() / 2 {
        evens[i] = query[i * 2];
        odds[i] = query[i * 2 + 1];
    }
}

// ---- bytes and sums in arrays

// W bytes, five or six, as one number. Byte by byte: for a copy into eight bytes, which was tried, the check finds no proof without laws about sums of bytes; as
// a loop over a sum of them a scan at 5 bits took 1.3 times as long.
fn word<const W: usize>(block: &[u8], at: usize) -> u64
    requires { (5 ≤ W) × (W ≤ 6) × (at + W ≤ length block.now) }
    ensures { result ≡ number 256 (take W (drop at block.now)) }
{
    let sixth = if W == 5 { 0 } else { block[at + 5] };
    u64::from_le_bytes([
        block[at],
        block[at + 1],
        block[at + 2],
        block[at + 3],
        block[at + 4],
        sixth,
        0,
        0,
    ])
}

// Where the table has the lowest pair of a word.
fn pair_place(word: u64, base: u64) -> usize
    requires { (0 < base) × (base ≤ 4096) }
    ensures { (result ≡ word % base * 2) × (result + 1 < base * 2) }
{
    (word % base) as usize * 2
}

// M sums to their place.
fn put<const M: usize>(sums: &mut [f32], at: usize, acc: [f32; M])
    requires { at + M ≤ length sums.old }
    ensures { sums.new ≡ sets sums.old at acc.entry }
{
    sums[at..at + M].copy_from_slice(&acc);
}

// M sums from their place.
fn part<const M: usize>(sums: &[f32], at: usize) -> [f32; M]
    requires { (M ≤ 8) × (at + M ≤ length sums.now) }
    ensures { result ≡ take M (drop at sums.now) }
{
    let mut acc = [0.0f32; M];
    acc.copy_from_slice(&sums[at..at + M]);
    acc
}

// The raw score of the k-th slot of a group, from its sums by the Rust's brackets. At 4 bits there is no tail to add but +0.
fn raw_of(bits: u8, sums: &[f32], k: usize) -> f32
    requires { k * 8 + 8 ≤ length sums.now }
    ensures { result ≡ raw_from bits sums.now k }
{
    if bits == 4 {
        return folds::fold_eight(part(sums, k * 8)) + 0.0;
    }
    folds::fold_four(part(sums, k * 4))
}

impl<'a> Tabled<'a> {
    // ---- 4 bits: a byte is a pair of codes

    // What byte i of a block adds. That a block is no longer than half the query is a clause, here and below: the block is one slot's, lent to each call, and the struct is of all slots.
    #[tactic(auto, unfolding(crate::specs::Pairs::byte_term))]
    fn byte_term(&self, block: &[u8], i: usize) -> f32
        requires { (i < length block.now) × (length block.now ≤ length self.now.of.query.now / 2) }
        ensures { result ≡ byte_term self.now.evens.now self.now.odds.now self.now.pairs.now block.now i }
    {
        let at = block[i] as usize * 2;
        self.evens[i] * self.pairs[at] + self.odds[i] * self.pairs[at + 1]
    }

    // Eight running sums with eight bytes more, lane j taking byte i + j. Lane by lane is the form that the paper names, and stays in vector registers.
    fn byte_step(&self, acc: [f32; 8], block: &[u8], i: usize) -> [f32; 8]
        requires { (i + 8 ≤ length block.now) × (length block.now ≤ length self.now.of.query.now / 2) }
        ensures { result ≡ tab (λ j. get_or acc j nan
            ⊕ byte_term self.now.evens.now self.now.odds.now self.now.pairs.now block.now (i + j)) 8 }
    {
        [
            acc[0] + self.byte_term(block, i),
            acc[1] + self.byte_term(block, i + 1),
            acc[2] + self.byte_term(block, i + 2),
            acc[3] + self.byte_term(block, i + 3),
            acc[4] + self.byte_term(block, i + 4),
            acc[5] + self.byte_term(block, i + 5),
            acc[6] + self.byte_term(block, i + 6),
            acc[7] + self.byte_term(block, i + 7),
        ]
    }

    // The eight running sums over a block of whole groups of eight bytes.
    fn byte_lanes(&self, block: &[u8]) -> [f32; 8]
        requires { (length block.now % 8 ≡ 0) × (length block.now ≤ length self.now.of.query.now / 2) }
        ensures { result ≡ byte_lanes self.now.evens.now self.now.odds.now self.now.pairs.now block.now }
    {
        let mut acc = [0.0f32; 8];
        for group in 0..block.len() / 8 {
            let next = self.byte_step(acc, block, group * 8);
            acc = next;
        }
        acc
    }

    // ---- 5 and 6 bits: eight codes are as many bytes as a code has bits, and four pairs

    // A running sum with two codes more, of the query's entries i and i + 4.
    fn wide_lane(&self, sum: f32, i: usize, at: usize, later: usize) -> f32
        requires { (i + 4 < length self.now.of.query.now) × (at < length self.now.pairs.now) × (later < length self.now.pairs.now) }
        ensures { result ≡ sum ⊕ get_or self.now.of.query.now i nan ⊗ get_or self.now.pairs.now at nan
            ⊕ get_or self.now.of.query.now (i + 4) nan ⊗ get_or self.now.pairs.now later nan }
    {
        sum + self.of.query[i] * self.pairs[at] + self.of.query[i + 4] * self.pairs[later]
    }

    // Four running sums with eight codes more, which a word has as four pairs, its digits to the base: lane j takes code i + j, and then code i + 4 + j.
    fn wide_step(&self, acc: [f32; 4], word: u64, base: u64, i: usize) -> [f32; 4]
        requires { (0 < base) × (base ≤ 4096) × (i + 8 ≤ length self.now.of.query.now) }
        ensures { result ≡ tab (λ j. get_or acc j nan
            ⊕ word_product base self.now.pairs.now self.now.of.query.now word i j
            ⊕ word_product base self.now.pairs.now self.now.of.query.now word i (4 + j)) 4 }
    {
        let a = pair_place(word, base);
        let b = pair_place(word / base, base);
        let c = pair_place(word / base / base, base);
        let d = pair_place(word / base / base / base, base);
        [
            self.wide_lane(acc[0], i, a, c),
            self.wide_lane(acc[1], i + 1, a + 1, c + 1),
            self.wide_lane(acc[2], i + 2, b, d),
            self.wide_lane(acc[3], i + 3, b + 1, d + 1),
        ]
    }

    // The running sums of two blocks at W bits a code.
    fn wide_lanes<const W: usize>(&self, one: &[u8], other: &[u8]) -> Two
        requires { (5 ≤ W) × (W ≤ 6) × (length self.now.of.query.now / 8 * W ≤ length one.now)
            × (length self.now.of.query.now / 8 * W ≤ length other.now) }
        ensures one { result.one ≡ wide_lanes W self.now.pairs.now self.now.of.query.now one.now }
        ensures other { result.other ≡ wide_lanes W self.now.pairs.now self.now.of.query.now other.now }
    {
        let base = 1u64 << (W + W);
        let mut acc = [0.0f32; 4];
        let mut acc2 = [0.0f32; 4];
        for group in 0..self.of.query.len() / 8 {
            let next = self.wide_step(acc, word::<W>(one, group * W), base, group * 8);
            acc = next;
            let next2 = self.wide_step(acc2, word::<W>(other, group * W), base, group * 8);
            acc2 = next2;
        }
        Two {
            one: acc,
            other: acc2,
        }
    }

    // ---- the sums of a group of 64 slots, whose marks are a word, stored: of the k-th slot from place k * 8 on, or k * 4

    // The codes of a slot.
    fn block(&self, slot: usize) -> &[u8]
        requires { slot < self.now.of.n }
        ensures codes { result.now ≡ part_at self.now.of.size slot self.now.of.codes.now }
        ensures size { length result.now ≡ self.now.of.size }
    {
        let from = slot * self.of.size;
        &self.of.codes[from..from + self.of.size]
    }

    // The sums of `many` slots from `first` on at 4 bits, as far as they are marked. By index: of what `chunks_exact_mut` lends nothing is known after the write.
    // That these slots are in use is a clause here and below: a struct of the two numbers with a ghost field would be longer.
    fn sum_bytes(&self, word: u64, first: usize, many: usize, sums: &mut [f32])
        requires width { self.now.of.bits ≡ 4 }
        requires arrays { (first + many ≤ self.now.of.n) × (many ≤ 64) × (many * 8 ≤ length sums.old) }
        requires lives { Lives (marks_in self.now.of.marks.now) first word }
        ensures { Summed 8 (λ i. byte_lanes self.now.evens.now self.now.odds.now self.now.pairs.now
            (part_at self.now.of.size i self.now.of.codes.now))
            (marks_in self.now.of.marks.now) first many many sums.new }
    {
        for k in 0..many {
            self.sum_slot(word, first, k, sums);
        }
    }

    // Those of the k-th slot, if it is marked.
    fn sum_slot(&self, word: u64, first: usize, k: usize, sums: &mut [f32])
        requires width { self.now.of.bits ≡ 4 }
        requires arrays { (first + k < self.now.of.n) × (k < 64) × (k * 8 + 8 ≤ length sums.old) }
        requires lives { Lives (marks_in self.now.of.marks.now) first word }
        ensures { sums.new ≡ cond (live_at (marks_in self.now.of.marks.now) (first + k)) (sets sums.old (k * 8)
            (byte_lanes self.now.evens.now self.now.odds.now self.now.pairs.now
            (part_at self.now.of.size (first + k) self.now.of.codes.now))) sums.old }
    {
        if !marks::is_set(word, k) {
            return;
        }
        put(sums, k * 8, self.byte_lanes(self.block(first + k)));
    }

    // Those of `many` slots from `first` on at 5 or 6 bits. A neighbour of a marked slot comes along. That there are 5 bits or 6
    // is a clause, here and below: the struct is of all widths.
    fn sum_wide(&self, word: u64, first: usize, many: usize, sums: &mut [f32])
        requires width { 5 ≤ self.now.of.bits }
        requires arrays { (first + many ≤ self.now.of.n) × (many ≤ 64) × (many * 4 ≤ length sums.old) }
        requires lives { Lives (marks_in self.now.of.marks.now) first word }
        ensures { Summed 4 (λ i. wide_lanes self.now.of.bits self.now.pairs.now self.now.of.query.now
            (part_at self.now.of.size i self.now.of.codes.now))
            (marks_in self.now.of.marks.now) first many many sums.new }
    {
        for half in 0..many.div_ceil(2) {
            let k = half * 2;
            self.sum_two(word, first, k, (k + 1).min(many - 1), sums);
        }
    }

    // Those of the k-th and the j-th slot from `first` on, if any of them is marked.
    fn sum_two(&self, word: u64, first: usize, k: usize, j: usize, sums: &mut [f32])
        requires width { 5 ≤ self.now.of.bits }
        requires arrays { (first + k < self.now.of.n) × (first + j < self.now.of.n) × (k < 64) × (j < 64)
            × (k * 4 + 4 ≤ length sums.old) × (j * 4 + 4 ≤ length sums.old) }
        requires lives { Lives (marks_in self.now.of.marks.now) first word }
        ensures { sums.new ≡ cond (live_at (marks_in self.now.of.marks.now) (first + k) || live_at (marks_in self.now.of.marks.now) (first + j))
            (sets (sets sums.old (k * 4) (wide_lanes self.now.of.bits self.now.pairs.now self.now.of.query.now
            (part_at self.now.of.size (first + k) self.now.of.codes.now)))
            (j * 4) (wide_lanes self.now.of.bits self.now.pairs.now self.now.of.query.now
            (part_at self.now.of.size (first + j) self.now.of.codes.now))) sums.old }
    {
        if !marks::is_set(word, k) && !marks::is_set(word, j) {
            return;
        }
        let two = self.two_lanes(self.block(first + k), self.block(first + j));
        put(sums, k * 4, two.one);
        put(sums, j * 4, two.other);
    }

    // The sums of two blocks at 5 or 6 bits. A function of its own to the compiler too: within its callers, one number more stays in a register through the
    // sums, and a search takes 5% longer at 5 bits and 2% at 6.
    #[inline(never)]
    fn two_lanes(&self, one: &[u8], other: &[u8]) -> Two
        requires width { 5 ≤ self.now.of.bits }
        requires blocks { (length one.now ≡ self.now.of.size) × (length other.now ≡ self.now.of.size) }
        ensures one { result.one ≡ wide_lanes self.now.of.bits self.now.pairs.now self.now.of.query.now one.now }
        ensures other { result.other ≡ wide_lanes self.now.of.bits self.now.pairs.now self.now.of.query.now other.now }
    {
        if self.of.bits == 5 {
            return self.wide_lanes::<5>(one, other);
        }
        self.wide_lanes::<6>(one, other)
    }

    // The sums of a group at any of the three widths.
    fn sum_group(&self, word: u64, first: usize, many: usize, sums: &mut [f32])
        requires arrays { (first + many ≤ self.now.of.n) × (many ≤ 64) × (many * 8 ≤ length sums.old) }
        requires lives { Lives (marks_in self.now.of.marks.now) first word }
        ensures { Raw self.now.of.bits (λ i. raw_by self.now.of.bits self.now.evens.now self.now.odds.now
            self.now.pairs.now self.now.of.query.now (part_at self.now.of.size i self.now.of.codes.now))
            (marks_in self.now.of.marks.now) first many sums.new }
    {
        if self.of.bits == 4 {
            self.sum_bytes(word, first, many, sums);
        } else {
            self.sum_wide(word, first, many, sums);
        }
    }

    // ---- from the sums to the scores, in groups

    // What the entry of the k-th slot of a group from `first` on becomes.
    fn group_entry(&self, sums: &[f32], word: u64, first: usize, k: usize, old: f32) -> f32
        requires arrays { (k * 8 + 8 ≤ length sums.now) × (first + k < self.now.of.n) × (k < 64) }
        requires lives { Lives (marks_in self.now.of.marks.now) first word }
        ensures { result ≡ score_after (live_at (marks_in self.now.of.marks.now) (first + k)) self.now.of.second
            (raw_from self.now.of.bits sums.now k ⊗ of_bits binary32 (get_or self.now.of.scales.now (first + k) 0)) old }
    {
        if !marks::is_set(word, k) {
            return old;
        }
        let scale = pattern::from_bits(self.of.scales[first + k]);
        self.of.joined(raw_of(self.of.bits, sums, k) * scale, old)
    }

    // The entries of `many` slots from `first` on.
    fn enter_group(&self, sums: &[f32], word: u64, first: usize, many: usize, all: &mut [f32])
        requires arrays { (many * 8 ≤ length sums.now) × (first + many ≤ self.now.of.n) × (many ≤ 64) × (first + many ≤ length all.old) }
        requires lives { Lives (marks_in self.now.of.marks.now) first word }
        ensures { Rescored (score_now (λ i. raw_from self.now.of.bits sums.now (i - first)
            ⊗ of_bits binary32 (get_or self.now.of.scales.now i 0)) (marks_in self.now.of.marks.now) self.now.of.second)
            first (first + many) all.old all.new }
    {
        for (k, score) in all[first..first + many].iter_mut().enumerate() {
            *score = self.group_entry(sums, word, first, k, *score);
        }
    }

    // The entries of one group. Most groups of a cascade have no candidate.
    fn scan_group(&self, word: u64, first: usize, many: usize, sums: &mut [f32], all: &mut [f32])
        requires arrays { (many * 8 ≤ length sums.old) × (first + many ≤ self.now.of.n) × (many ≤ 64) × (first + many ≤ length all.old) }
        requires lives { Lives (marks_in self.now.of.marks.now) first word }
        ensures { Rescored (score_now (score_by self.now.of.bits self.now.evens.now self.now.odds.now self.now.pairs.now
            self.now.of.query.now self.now.of.size self.now.of.codes.now self.now.of.scales.now)
            (marks_in self.now.of.marks.now) self.now.of.second) first (first + many) all.old all.new }
    {
        if word == 0 {
            return;
        }
        self.sum_group(word, first, many, sums);
        self.enter_group(sums, word, first, many, all);
    }

    // All slots, in groups. That `all` has their places is a clause here and below: `all` is written, and a struct of it with a ghost field would be longer.
    // A word, its first slot and how many slots it has, here, in `scan_plainly`, in hits and in nearest: an iterator that gave the three would have to say in its
    // contract what it gives, which is longer than the lines.
    fn scan_groups(&self, sums: &mut [f32], all: &mut [f32])
        requires { (self.now.of.n ≤ length all.old) × (512 ≤ length sums.old) }
        ensures { Rescored (score_now (score_by self.now.of.bits self.now.evens.now self.now.odds.now self.now.pairs.now
            self.now.of.query.now self.now.of.size self.now.of.codes.now self.now.of.scales.now)
            (marks_in self.now.of.marks.now) self.now.of.second) 0 self.now.of.n all.old all.new }
    {
        for group in 0..self.of.n.div_ceil(64) {
            let word = marks::word_at(self.of.marks, group);
            let first = group * 64;
            let many = (self.of.n - first).min(64);
            self.scan_group(word, first, many, sums, all);
        }
    }
}

impl<'a> Stage<'a> {
    ghost use Rattle.scan.specs.Stages.{Scores};

    // What a marked slot's entry becomes.
    #[tactic(auto, unfolding(crate::specs::Scan::score_after))]
    fn joined(&self, score: f32, old: f32) -> f32
        ensures { result ≡ score_after true self.now.second score old }
    {
        if self.second { old + score } else { score }
    }

    // ---- one slot after the other, at any sizes

    // What a slot's entry becomes.
    fn plain_entry(&self, marked: bool, slot: usize, old: f32) -> f32
        requires { marked ≡ live_at (marks_in self.now.marks.now) slot }
        ensures { result ≡ score_now (stage_of self.now.bits self.now.centroids.now self.now.query.now self.now.size
            self.now.codes.now self.now.scales.now) (marks_in self.now.marks.now) self.now.second slot old }
    {
        if !marked {
            return old;
        }
        let block = codes::slot_codes(self.codes, slot, self.size);
        let scale = self.scales.get(slot).copied().unwrap_or(0);
        self.joined(
            kernels::stage_score(self.bits, self.centroids, self.query, scale, block),
            old,
        )
    }

    // The entries of `many` slots from `first` on, whose marks are a word.
    fn plain_group(&self, word: u64, first: usize, many: usize, all: &mut [f32])
        requires arrays { (first + many ≤ self.now.n) × (many ≤ 64) × (first + many ≤ length all.old) }
        requires lives { Lives (marks_in self.now.marks.now) first word }
        ensures { Rescored (score_now (stage_of self.now.bits self.now.centroids.now self.now.query.now self.now.size
            self.now.codes.now self.now.scales.now) (marks_in self.now.marks.now) self.now.second) first (first + many) all.old all.new }
    {
        if word == 0 {
            return;
        }
        for (k, score) in all[first..first + many].iter_mut().enumerate() {
            *score = self.plain_entry(marks::is_set(word, k), first + k, *score);
        }
    }

    // The plain way, for short queries and arrays.
    fn scan_plainly(&self, all: &mut [f32])
        requires { self.now.n ≤ length all.old }
        ensures { Scores self.now all.old all.new }
    {
        for group in 0..self.n.div_ceil(64) {
            let word = marks::word_at(self.marks, group);
            let first = group * 64;
            let many = (self.n - first).min(64);
            self.plain_group(word, first, many, all);
        }
    }

    // ---- the fast way

    // True only where it can be gone.
    fn is_grouped(&self) -> bool
        ensures { result ≡ true → Grouped self.now.bits (length self.now.centroids.now) (length self.now.query.now) self.now.size
            (length self.now.codes.now) (length self.now.scales.now) self.now.n }
    {
        if !(4..=6).contains(&self.bits) || self.centroids.len() != 1usize << self.bits {
            return false;
        }
        if self.query.len() % 16 != 0 || 4096 < self.query.len() {
            return false;
        }
        if self.size == 0 || self.size != codes::bytes_per_vector(self.query.len(), self.bits) {
            return false;
        }
        if self.codes.len() / self.size < self.n {
            return false;
        }
        self.n <= self.scales.len()
    }

    // In groups, by tables.
    fn scan_grouped(&self, all: &mut [f32])
        requires grouped { Grouped self.now.bits (length self.now.centroids.now) (length self.now.query.now) self.now.size
            (length self.now.codes.now) (length self.now.scales.now) self.now.n }
        requires places { self.now.n ≤ length all.old }
        ensures { Scores self.now all.old all.new }
    {
        let mut pairs = [0.0f32; 8192];
        fill_pairs(self.bits, self.centroids, &mut pairs);
        let mut evens = [0.0f32; 2048];
        let mut odds = [0.0f32; 2048];
        halve(self.query, &mut evens, &mut odds);
        let tables = Tabled {
            of: *self,
            evens: &evens,
            odds: &odds,
            pairs: &pairs,
        };
        let mut sums = [0.0f32; 512];
        tables.scan_groups(&mut sums, all);
    }

    // The one way or the other.
    fn scan(&self, all: &mut [f32])
        requires { self.now.n ≤ length all.old }
        ensures { Scores self.now all.old all.new }
    {
        if self.is_grouped() {
            self.scan_grouped(all);
        } else {
            self.scan_plainly(all);
        }
    }
}

// The scores of a stage of the marked slots below n, each in its slot's place; for a second stage they are added to what stands there. Where there
// are fewer places than slots, nothing is written. The parameters come one by one: a public struct would be filled at hits' two calls
// only, which differ in codes, scales and `second`.
pub fn stage_scores(
    bits: u8,
    centroids: &[f32],
    query: &[f32],
    size: usize,
    codes: &[u8],
    scales: &[u32],
    marks: &[u64],
    n: usize,
    second: bool,
    all: &mut [f32],
)
    ensures { all.new ≡ scanned (stage_of bits centroids.now query.now size codes.now scales.now)
        (marks_in marks.now) second n all.old }
{
    if all.len() < n {
        return;
    }
    let stage = Stage {
        bits,
        centroids,
        query,
        size,
        codes,
        scales,
        marks,
        n,
        second,
    };
    stage.scan(all);
}
