// Keyed search (document 01, store.rs): the keys of the live slots that score highest under a query, each once, with the score of its first hit.
#![tactic(auto)]

ghost use Rattle.std.specs.Prelude.{◌≡◌, map, ◌≤◌, min, max, length};
ghost use Rattle.lists.specs.Lists.{over};
ghost use Rattle.index.specs.Lent.{contents};
ghost use Rattle.index.specs.Verdict.{verdict};
ghost use Rattle.index.specs.Step as Step;
ghost use Rattle.index.specs.Step.{query_of};
ghost use Rattle.index.specs.Call.{call};
ghost use Rattle.index.specs.Answers.{result_of, how_many, found_keyed, LaterKept};
ghost use Rattle.asking.specs.Faults.{search_fault};
ghost use Rattle.search_keyed.specs.Named.{listed_count, keyed_of, named_answer};

use hits::Unlisted;
use index::{Index, Lent};
use refusal::Refusal;

// Names the hits that a list answers, in the first places of `slots` and `found`; 12 where it answers none.
// One function for both sizes of working arrays: what naming needs of memory is never there together with what listing needs.
fn name_hits(
    listed: Result<usize, Unlisted>,
    arrays: &Lent<'_>,
    slots: &[u32],
    found: &[f32],
    names: &mut [u64],
    scores: &mut [f32],
) -> Result<usize, Refusal>
    requires { (listed_count listed ≤ length slots.now) × (listed_count listed ≤ length found.now) }
    ensures value { verdict result ≡ named_answer listed (keyed_of arrays.now.keys.now arrays.now.keyed.now slots.now found.now
        (min (length names.old) (length scores.old)) listed) }
    ensures names_after { names.new ≡ over (map (λ e. e.0) (keyed_of arrays.now.keys.now arrays.now.keyed.now slots.now found.now
        (min (length names.old) (length scores.old)) listed)) names.old }
    ensures scores_after { scores.new ≡ over (map (λ e. e.1) (keyed_of arrays.now.keys.now arrays.now.keyed.now slots.now found.now
        (min (length names.old) (length scores.old)) listed)) scores.old }
{
    let m = listed?;
    Ok(distinct::list_keys(
        arrays.keys,
        arrays.keyed,
        &slots[0..m],
        &found[0..m],
        names,
        scores,
    ))
}

// The search after its tests, by way of working arrays with N places.
fn search_in<const N: usize>(
    index: Index,
    arrays: &Lent<'_>,
    query: &[f32],
    k: usize,
    names: &mut [u64],
    scores: &mut [f32],
) -> Result<usize, Refusal>
    requires accepted { search_fault index (contents arrays.now) (query_of query.now) k (min (length names.old) (length scores.old)) ≡ 0 }
    requires room { (min (min (max k 1) index.live) 65536 ≤ N) × (N ≤ 65536) }
    ensures answers { let a = contents arrays.now in
        result_of index a (found_keyed (verdict result) names.new scores.new)
        ≡ call index a (Step.search_keyed (query_of query.now) k (min (length names.old) (length scores.old))) }
    ensures later_kept { LaterKept (how_many (verdict result)) names.old names.new
        × LaterKept (how_many (verdict result)) scores.old scores.new }
{
    let mut slot_places = [0u32; N];
    let mut score_places = [0.0f32; N];
    let slots = &mut slot_places[..];
    let found = &mut score_places[..];
    let listed = hits::list(index, arrays, arrays.alive, query, k, slots, found);
    name_hits(listed, arrays, slots, found, names, scores)
}

// Writes the keys and scores to the first places of `names` and `scores`, and answers how many they are: fewer than k where hits have no key or a key twice.
// Refused by 13, 1, 2, 3 and 12 in this order: the result needs as many places as in a search, and a slot without a key counts for 12.
pub fn search_keyed(
    index: Index,
    arrays: &Lent<'_>,
    query: &[f32],
    k: usize,
    names: &mut [u64],
    scores: &mut [f32],
) -> Result<usize, Refusal>
    ensures answers { let a = contents arrays.now in
        result_of index a (found_keyed (verdict result) names.new scores.new)
        ≡ call index a (Step.search_keyed (query_of query.now) k (min (length names.old) (length scores.old))) }
    ensures later_kept { LaterKept (how_many (verdict result)) names.old names.new
        × LaterKept (how_many (verdict result)) scores.old scores.new }
{
    asking::check_search(index, arrays, query, k, names.len(), scores.len())?;
    // Clearing working arrays for 65,536 hits would take longer than a search for a few.
    if asking::places_needed(k, index.live) <= 1024 {
        return search_in::<1024>(index, arrays, query, k, names, scores);
    }
    search_in::<65536>(index, arrays, query, k, names, scores)
}
