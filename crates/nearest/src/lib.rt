// The candidates of a cascade (document 01, store.rs, cascade): "the r smallest (distance, slot) pairs" among the live slots.
//
// The limit, the distance of the last candidate, is found by counting how many slots have each distance. The candidates are the slots below
// it, and the first at it that make them r.
#![tactic(auto)]

mod distances;

ghost use Rattle.std.specs.Prelude.{◌≡◌, ℕ, cond, ◌&&◌, ◌||◌, ◌+◌, ◌≤◌, ◌<◌, ltb, eqb, length, get_or};
ghost use Rattle.lists.specs.Lists.{tab, over};
ghost use Rattle.lists.specs.Keep.{bit, Each};
ghost use Rattle.marks.specs.Live.{marks_in, no_marks};
ghost use Rattle.marks.specs.Word.{Bits};
ghost use Rattle.index.specs.State.{header_of};
ghost use Rattle.index.specs.Step.{query_of};
ghost use Rattle.nearest.specs.Distances.{distance_at, past};
ghost use Rattle.nearest.specs.Nearest.{near_marks, cascadable};
ghost use Rattle.nearest.specs.Limit.{level, Limits, is_marked};

use index::Index;

// ---- the limit

// All slots below the distance are candidates, and the first `ties` at it.
#[derive(Clone, Copy)]
struct Limit {
    distance: u32,
    ties: usize,
}

// The marks of up to 64 slots as a word, and how many slots at the limit there are up to the last of them.
#[derive(Clone, Copy)]
struct Group {
    word: u64,
    seen: usize,
}

// Counts how many live slots have each distance, from counts of 0 on. Dead slots are counted in 64 places past these in turn: in one place, each
// addition would wait for the one before.
fn count_distances(distances: &[u32], counts: &mut [u32])
    requires few { length distances.now ≤ 65536 }
    requires low { Each (λ d. d < 12290) distances.now }
    requires room { past + 64 ≤ length counts.old }
    requires zero { (d : ℕ) → get_or counts.old d 0 ≡ 0 }
    ensures { (d : ℕ) → d < past → get_or counts.new d 0 ≡ level distances.now d (length distances.now) }
{
    for (slot, d) in distances.iter().enumerate() {
        let turn = (*d == 12289) as usize * (slot % 64);
        counts[*d as usize + turn] += 1;
    }
}

// The limit of the r nearest slots. Dead slots, which are no candidates, are counted past the 12,289 distances.
fn find_limit(distances: &[u32], r: usize) -> Limit
    requires few { length distances.now ≤ 65536 }
    requires low { Each (λ d. d < 12290) distances.now }
    ensures { Limits distances.now r result }
{
    let mut counts = [0u32; 12353];
    count_distances(distances, &mut counts);
    let mut nearer = 0;
    for (distance, count) in counts[..12289].iter().enumerate() {
        let reached = nearer + *count as usize;
        if r <= reached {
            return Limit {
                distance: distance as u32,
                ties: r - nearer,
            };
        }
        nearer = reached;
    }
    Limit {
        distance: 12289,
        ties: 0,
    }
}

// ---- the marks

impl Limit {
    // Whether a slot is a candidate, `seen` slots at the limit being before it.
    fn is_marked(self, distance: u32, seen: usize) -> bool
        ensures { result ≡ (ltb distance self.distance || (eqb distance self.distance && ltb seen self.ties)) }
    {
        distance < self.distance || distance == self.distance && seen < self.ties
    }

    // The marks of `many` slots from `first` on, `seen` slots at the limit being before them.
    // A mark comes in at the top of the word, and each after it moves it down: that takes three quarters of the time of a shift by j.
    // By index: the promise counts the slots at the limit before each, of which a part of the distances would say nothing.
    fn mark_group(self, distances: &[u32], first: usize, many: usize, seen: usize) -> Group
        requires { (first + many ≤ length distances.now) × (0 < many) × (many ≤ 64) × (seen ≡ level distances.now self.distance first) }
        ensures word { Bits (λ j. is_marked distances.now self.distance self.ties (first + j)) many result.word }
        ensures seen { result.seen ≡ level distances.now self.distance (first + many) }
    {
        let mut word: u64 = 0;
        let mut all_seen = seen;
        for j in 0..many {
            let distance = distances[first + j];
            word = word / 2 + ((self.is_marked(distance, all_seen) as u64) << 63);
            all_seen += (distance == self.distance) as usize;
        }
        Group {
            word: word >> (64 - many),
            seen: all_seen,
        }
    }

    // Marks the slots that are within the limit, where none is marked before.
    fn mark(self, distances: &[u32], marks: &mut [u64])
        requires room { length distances.now ≤ length (marks_in marks.old) }
        requires none { (i : ℕ) → get_or marks.old i 0 ≡ 0 }
        ensures { marks_in marks.new ≡ over (tab (λ i. bit (is_marked distances.now self.distance self.ties i)) (length distances.now)) (marks_in marks.old) }
    {
        let mut seen: usize = 0;
        for i in 0..distances.len().div_ceil(64) {
            let first = i * 64;
            let many = (distances.len() - first).min(64);
            let group = self.mark_group(distances, first, many, seen);
            marks[i] = group.word;
            seen = group.seen;
        }
    }
}

// ---- the call

#[tactic(auto, unfolding(crate::specs::Nearest::cascadable))]
fn is_ready(slots: usize, marks: usize, width: u8, working_dim: usize, entries: usize) -> bool
    ensures { result ≡ cascadable slots marks width working_dim entries }
{
    slots <= marks
        && slots <= 65536
        && width == 4
        && padding::is_rotatable(working_dim, entries, 4096)
}

// Marks the r nearest live slots, and no other. None is marked where the record is out of range, the query can't be rotated or there are too few places.
pub fn mark_nearest(
    index: Index,
    codes: &[u8],
    alive: &[u64],
    query: &[f32],
    r: usize,
    marks: &mut [u64],
)
    ensures { let none = no_marks (marks_in marks.old) in
        marks_in marks.new ≡ cond (cascadable index.n (length none) index.bits index.working_dim (length query.now))
        (over (near_marks (distance_at (header_of index) codes.now (query_of query.now)) (marks_in alive.now) index.n r) none) none }
{
    marks.fill(0);
    if is_ready(
        index.n,
        marks::places(marks),
        index.bits,
        index.working_dim,
        query.len(),
    ) {
        let mut places = [0u32; 65536];
        distances::live_distances(index, codes, alive, query, &mut places);
        let distances = &places[..index.n];
        find_limit(distances, r).mark(distances, marks);
    }
}
