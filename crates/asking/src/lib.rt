// The first tests of every search (document 01): 13 of the index, then 13 of the result's places.
#![tactic(auto)]

ghost use Rattle.std.specs.Prelude.{◌≡◌, min, max};
ghost use Rattle.refusal.specs.Refusal.{fault_of};
ghost use Rattle.index.specs.Lent.{contents};
ghost use Rattle.index.specs.Step.{query_of};
ghost use Rattle.asking.specs.Faults.{places_fault, search_fault};

use index::{Index, Lent};
use refusal::Refusal;

// How many places a result needs, a keyed search's too: as many as a search lists hits.
pub fn places_needed(k: usize, live: usize) -> usize
    ensures { result ≡ min (max k 1) live }
{
    k.max(1).min(live)
}

// 13 where record and arrays misfit, or where the shorter of two result slices of these lengths is too short.
pub fn check_places(
    index: Index,
    arrays: &Lent<'_>,
    k: usize,
    slots: usize,
    scores: usize,
) -> Result<(), Refusal>
    ensures { fault_of result ≡ places_fault index (contents arrays.now) k (min slots scores) }
{
    fit::check(index, arrays)?;
    if slots.min(scores) < places_needed(k, index.live) {
        return Err(Refusal::Misfit);
    }
    Ok(())
}

// The refusal of a full search before any score: 13 of the index, 13 of the places, 1, 2, 3.
pub fn check_search(
    index: Index,
    arrays: &Lent<'_>,
    query: &[f32],
    k: usize,
    slots: usize,
    scores: usize,
) -> Result<(), Refusal>
    ensures { fault_of result ≡ search_fault index (contents arrays.now) (query_of query.now) k (min slots scores) }
{
    check_places(index, arrays, k, slots, scores)?;
    vectors::check(index.dim, index.working_dim, query)
}
