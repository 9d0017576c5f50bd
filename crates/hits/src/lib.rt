// The hits among marked slots: a slot takes part where its mark is set. Searches mark the live slots, cascades the nearest of them.
//
// Scores and order numbers of all slots stand in two working arrays, and no place is written before every score is known to be no NaN.
#![tactic(auto)]

ghost use Rattle.std.specs.Prelude.{◌≡◌, true, map, List, ℕ, ◌≤◌, ◌<◌, ◌+◌, min, length, get_or};
ghost use Rattle.std.specs.Float.{nan};
ghost use Rattle.std.specs.List.{list_any, range_with_len};
ghost use Rattle.pattern.specs.Binary32.{+0};
ghost use Rattle.lists.specs.Lists.{over};
ghost use Rattle.lists.specs.Keep.{Each};
ghost use Rattle.marks.specs.Live.{marks_in, live_at};
ghost use Rattle.marks.specs.Word.{Lives};
ghost use Rattle.unit.specs.Brought.{query_of};
ghost use Rattle.padding.specs.Rotatable.{rotatable};
ghost use Rattle.refusal.specs.declared.Refusal.TheVariants.{ScoreNan};
ghost use Rattle.index.specs.Lent.{contents};
ghost use Rattle.hits.specs.Hits.{slot_score_in, list_answer, shown, ready};
ghost use Rattle.hits.specs.Steps.{prepared_score, Scores, EntersFrom, EntersSlot, EntersSlots, WritesHits, any_takes_part, count_answer, ListsHits};

use index::{Index, Lent};
use refusal::Refusal;

// Why `list` writes no hits: a score is NaN; or it is unable to, for more than 65,536 slots, no such width, a working_dim out of range, a query too short, or too
// few places.
#[derive(Clone, Copy, Debug, PartialEq, Eq)]
pub enum Unlisted {
    Nan,
    Unable,
}

// The refusal of a search whose list writes no hits: after a search's tests the list can be made, so a score is NaN.
impl From<Unlisted> for Refusal {
    ghost from_gives = { λ _ r. r ≡ ScoreNan };

    fn from(_: Unlisted) -> Refusal {
        Refusal::ScoreNan
    }
}

// ---- whether the call can be made

#[tactic(auto, unfolding(crate::specs::Hits::ready))]
fn is_ready(index: Index, entries: usize) -> bool
    ensures { result ≡ ready index.n index.bits index.working_dim entries }
{
    index.n <= 65536
        && (4..=6).contains(&index.bits)
        && padding::is_rotatable(index.working_dim, entries, 4096)
}

// ---- the working arrays

// The scores of the marked slots in use under a prepared query, each in its slot's place. The range of the width and the length of `all` are clauses here and
// below: an index that is lent by C has no ghost field, and a struct around it, or around `all`, would be longer.
fn score_slots(
    index: Index,
    arrays: &Lent<'_>,
    marks: &[u64],
    centroids: &[f32],
    prepared: &[f32],
    all: &mut [f32],
)
    requires { (4 ≤ index.bits) × (index.bits ≤ 6) × (index.n ≤ length all.old) }
    ensures { Scores (prepared_score index (contents arrays.now) centroids.now prepared.now) (marks_in marks.now) index.n all.old all.new }
{
    let bits = index.bits;
    let size = codes::bytes_per_vector(padding::padded_dim(index.working_dim), bits);
    scan::stage_scores(
        bits,
        centroids,
        prepared,
        size,
        arrays.codes,
        arrays.scales,
        marks,
        index.n,
        false,
        all,
    );
    if index.residual {
        scan::stage_scores(
            bits,
            centroids,
            prepared,
            size,
            arrays.codes2,
            arrays.scales2,
            marks,
            index.n,
            true,
            all,
        );
    }
}

// Enters a slot, whose score is there if it takes part, into the working arrays. False where it takes part and its score is NaN.
fn enter_slot(marked: bool, slot: usize, all: &mut [f32], orders: &mut [u32]) -> bool
    requires { (slot < length all.old) × (slot < length orders.old) }
    ensures { (marks : List ℕ) → marked ≡ live_at marks slot → EntersSlot (λ i. get_or all.old i nan) marks slot
        all.old all.new orders.old orders.new result }
{
    if !marked {
        all[slot] = 0.0;
        orders[slot] = 0;
        return true;
    }
    let score = all[slot];
    if score.is_nan() {
        return false;
    }
    orders[slot] = scoring::order_number(score);
    true
}

// Enters the slots of one word: `many` slots from `first` on, of which `word` has the marks. False, at the first NaN, where one that takes part has a NaN for its
// score.
// By a for, here and in `enter_orders`: in the iterator's `all` the closure would change the two arrays, and nothing would say what they are afterwards; a for has
// an invariant that says it.
fn enter_group(word: u64, first: usize, many: usize, all: &mut [f32], orders: &mut [u32]) -> bool
    requires { (many ≤ 64) × (first + many ≤ length all.old) × (first + many ≤ length orders.old) }
    ensures { (marks : List ℕ) → Lives marks first word → EntersFrom (λ i. get_or all.old i nan) marks first many
        all.old all.new orders.old orders.new result }
{
    for k in 0..many {
        if !enter_slot(marks::is_set(word, k), first + k, all, orders) {
            return false;
        }
    }
    true
}

// Enters the slots below n, whose scores are there. False, at the first NaN, where one of them that takes part has a NaN for its score.
fn enter_orders(marks: &[u64], n: usize, all: &mut [f32], orders: &mut [u32]) -> bool
    requires { (n ≤ length all.old) × (n ≤ length orders.old) }
    ensures { EntersSlots (λ i. get_or all.old i nan) (marks_in marks.now) n
        all.old all.new orders.old orders.new result }
{
    for group in 0..n.div_ceil(64) {
        let word = marks::word_at(marks, group);
        let first = group * 64;
        let many = (n - first).min(64);
        if !enter_group(word, first, many, all, orders) {
            return false;
        }
    }
    true
}

// Enters the slots in use under a prepared query.
fn enter_slots(
    index: Index,
    arrays: &Lent<'_>,
    marks: &[u64],
    centroids: &[f32],
    prepared: &[f32],
    all: &mut [f32],
    orders: &mut [u32],
) -> bool
    requires { (4 ≤ index.bits) × (index.bits ≤ 6) × (index.n ≤ length all.old) × (index.n ≤ length orders.old) }
    ensures { EntersSlots (prepared_score index (contents arrays.now) centroids.now prepared.now)
        (marks_in marks.now) index.n all.old all.new orders.old orders.new result }
{
    score_slots(index, arrays, marks, centroids, prepared, all);
    enter_orders(marks, index.n, all, orders)
}

// Enters the slots in use under a query.
fn enter_all(
    index: Index,
    arrays: &Lent<'_>,
    marks: &[u64],
    query: &[f32],
    all: &mut [f32],
    orders: &mut [u32],
) -> bool
    requires sizes { (4 ≤ index.bits) × (index.bits ≤ 6) × (index.n ≤ length all.old) × (index.n ≤ length orders.old) }
    requires can_rotate { rotatable index.working_dim (length query.now) 4096 ≡ true }
    ensures { EntersSlots (slot_score_in index (contents arrays.now) (query_of query.now))
        (marks_in marks.now) index.n all.old all.new orders.old orders.new result }
{
    let levels = lloyd::levels(index.bits);
    let centroids = lloyd::centroids(index.bits);
    let padded = padding::padded_dim(index.working_dim);
    let mut prepared = [0.0f32; 4096];
    unit::prepare(index.working_dim, index.seed, query, &mut prepared);
    enter_slots(
        index,
        arrays,
        marks,
        &centroids[0..levels],
        &prepared[0..padded],
        all,
        orders,
    )
}

// ---- the list

// The score of each of these slots, in the first places of `scores`. One of the two slices goes by index: where iter_mut() is zipped, nothing is known after
// the loop of the entries that were written, as in crate encode.
fn write_scores(all: &[f32], slots: &[u32], scores: &mut [f32])
    requires slots_within { Each (λ i. i < length all.now) slots.now }
    requires room { length slots.now ≤ length scores.old }
    ensures { scores.new ≡ over (map (λ i. get_or all.now i +0) slots.now) scores.old }
{
    for (i, slot) in slots.iter().enumerate() {
        scores[i] = all[*slot as usize];
    }
}

// Writes the chosen slots and their scores, by scores and order numbers of the slots, and returns how many there are.
// Writes nothing and returns 0 where there are fewer places.
fn write_hits(all: &[f32], orders: &[u32], k: usize, slots: &mut [u32], scores: &mut [f32]) -> usize
    requires { length all.now ≡ length orders.now }
    ensures { WritesHits all.now orders.now k slots.old slots.new scores.old scores.new result }
{
    let places = slots.len().min(scores.len());
    let n = shortlist::choose(orders, k, &mut slots[0..places]);
    write_scores(all, &slots[0..n], scores);
    n
}

// Whether one of the slots below n takes part.
fn is_any_marked(marks: &[u64], n: usize) -> bool
    ensures { result ≡ list_any (live_at (marks_in marks.now)) (range_with_len 0 n) }
{
    (0..n).any(|i| marks::is_live(marks, i))
}

// The answer where so many hits were written. None is written where no slot takes part, and also where places are too few for those that do.
fn count_answer(hits: usize, marks: &[u64], n: usize) -> Result<usize, Unlisted>
    ensures { result ≡ count_answer hits (any_takes_part (marks_in marks.now) n) }
{
    if 0 < hits {
        return Ok(hits);
    }
    if is_any_marked(marks, n) {
        return Err(Unlisted::Unable);
    }
    Ok(0)
}

// The call where it can be made, by way of working arrays with N places.
fn list_in<const N: usize>(
    index: Index,
    arrays: &Lent<'_>,
    marks: &[u64],
    query: &[f32],
    k: usize,
    slots: &mut [u32],
    scores: &mut [f32],
) -> Result<usize, Unlisted>
    requires is_ready { ready index.n index.bits index.working_dim (length query.now) ≡ true }
    requires room { (index.n ≤ N) × (N ≤ 65536) }
    ensures { ListsHits (slot_score_in index (contents arrays.now) (query_of query.now))
        (marks_in marks.now) index.n k slots.old slots.new scores.old scores.new result }
{
    let n = index.n;
    let mut score_places = [0.0f32; N];
    let mut order_places = [0u32; N];
    let all = &mut score_places[..];
    let orders = &mut order_places[..];
    if !enter_all(index, arrays, marks, query, all, orders) {
        return Err(Unlisted::Nan);
    }
    let hits = write_hits(&all[0..n], &orders[0..n], k, slots, scores);
    count_answer(hits, marks, n)
}

// Writes the hits of the marked slots to the first places of `slots` and `scores`, and answers how many they are, or why there are none.
pub fn list(
    index: Index,
    arrays: &Lent<'_>,
    marks: &[u64],
    query: &[f32],
    k: usize,
    slots: &mut [u32],
    scores: &mut [f32],
) -> Result<usize, Unlisted>
    ensures answer { result ≡ list_answer (slot_score_in index (contents arrays.now) (query_of query.now))
        (marks_in marks.now) index.n (ready index.n index.bits index.working_dim (length query.now)) k
        (min (length slots.old) (length scores.old)) }
    ensures slots_after { slots.new ≡ over (map (λ e. e.0)
        (shown (slot_score_in index (contents arrays.now) (query_of query.now)) (marks_in marks.now) index.n k result)) slots.old }
    ensures scores_after { scores.new ≡ over (map (λ e. e.1)
        (shown (slot_score_in index (contents arrays.now) (query_of query.now)) (marks_in marks.now) index.n k result)) scores.old }
{
    if !is_ready(index, query.len()) {
        return Err(Unlisted::Unable);
    }
    // Clearing working arrays for 65,536 slots would take longer than a search of a few.
    if index.n <= 1024 {
        return list_in::<1024>(index, arrays, marks, query, k, slots, scores);
    }
    list_in::<65536>(index, arrays, marks, query, k, slots, scores)
}
