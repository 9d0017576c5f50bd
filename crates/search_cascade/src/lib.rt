// Search by cascade (document 01, store.rs): of the live slots only those nearest to the query by the codes' top two bits are scored.
#![tactic(auto)]

ghost use Rattle.std.specs.Prelude.{◌≡◌, min, length};
ghost use Rattle.refusal.specs.Refusal.{fault_of};
ghost use Rattle.index.specs.Lent.{contents};
ghost use Rattle.index.specs.Verdict.{verdict};
ghost use Rattle.index.specs.Step as Step;
ghost use Rattle.index.specs.Step.{query_of};
ghost use Rattle.index.specs.Call.{call};
ghost use Rattle.index.specs.Answers.{result_of, how_many, found, LaterKept};
ghost use Rattle.search_cascade.specs.Cascade.{enabled, cascade_fault};

use index::{Index, Lent};
use refusal::Refusal;

// ---- the tests

// Refusal 11 is where this is false.
fn is_enabled(index: Index) -> bool
    ensures { result ≡ enabled index }
{
    index.cascade && index.bits == 4
}

// The refusal of a cascade before any score: 13 of the index, 13 of the places, 11, 1, 2, 3.
fn check(
    index: Index,
    arrays: &Lent<'_>,
    query: &[f32],
    k: usize,
    slots: usize,
    scores: usize,
) -> Result<(), Refusal>
    ensures { fault_of result ≡ cascade_fault index (contents arrays.now) (query_of query.now) k (min slots scores) }
{
    asking::check_places(index, arrays, k, slots, scores)?;
    if !is_enabled(index) {
        return Err(Refusal::NoCascade);
    }
    vectors::check(index.dim, index.working_dim, query)
}

// ---- the candidates

// How many slots are to be scored: "r raised to k, at most live".
fn candidates_wanted(k: usize, r: usize, live: usize) -> usize
    ensures { result ≡ Step.wide k r live }
{
    r.max(k.min(live).max(1)).min(live)
}

// ---- the call

// Writes the chosen candidates' numbers and scores to the first places of `slots` and `scores`, and answers how many they are.
// Refused by 13, 11, 1, 2, 3 and 12 in this order, 12 over the candidates only.
pub fn search_cascade(
    index: Index,
    arrays: &Lent<'_>,
    query: &[f32],
    k: usize,
    r: usize,
    slots: &mut [u32],
    scores: &mut [f32],
) -> Result<usize, Refusal>
    ensures answers { let a = contents arrays.now in
        result_of index a (found (verdict result) slots.new scores.new)
        ≡ call index a (Step.search_cascade (query_of query.now) k r (min (length slots.old) (length scores.old))) }
    ensures later_kept { LaterKept (how_many (verdict result)) slots.old slots.new
        × LaterKept (how_many (verdict result)) scores.old scores.new }
{
    check(index, arrays, query, k, slots.len(), scores.len())?;
    // A mark for each of 65,536 slots, in words. The contents don't matter.
    let mut marks = [0u64; 1024];
    let many = candidates_wanted(k, r, index.live);
    nearest::mark_nearest(index, arrays.codes, arrays.alive, query, many, &mut marks);
    // After these tests the list can be made: where there is none, a score is NaN.
    Ok(hits::list(index, arrays, &marks, query, k, slots, scores)?)
}
