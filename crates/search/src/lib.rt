// Search (document 01, store.rs): the live slots that score highest under a query, with their scores.
#![tactic(auto)]

ghost use Rattle.std.specs.Prelude.{◌≡◌, min, length};
ghost use Rattle.index.specs.Lent.{contents};
ghost use Rattle.index.specs.Verdict.{verdict};
ghost use Rattle.index.specs.Step as Step;
ghost use Rattle.index.specs.Step.{query_of};
ghost use Rattle.index.specs.Call.{call};
ghost use Rattle.index.specs.Answers.{result_of, how_many, found, LaterKept};

use index::{Index, Lent};
use refusal::Refusal;

// Writes the chosen slots' numbers and scores to the first places of `slots` and `scores`, and answers how many they are.
// Refused by 13, 1, 2, 3 and 12 in this order.
pub fn search(
    index: Index,
    arrays: &Lent<'_>,
    query: &[f32],
    k: usize,
    slots: &mut [u32],
    scores: &mut [f32],
) -> Result<usize, Refusal>
    ensures answers { let a = contents arrays.now in
        result_of index a (found (verdict result) slots.new scores.new)
        ≡ call index a (Step.search (query_of query.now) k (min (length slots.old) (length scores.old))) }
    ensures later_kept { LaterKept (how_many (verdict result)) slots.old slots.new
        × LaterKept (how_many (verdict result)) scores.old scores.new }
{
    asking::check_search(index, arrays, query, k, slots.len(), scores.len())?;
    // After these tests the list can be made: where there is none, a score is NaN.
    Ok(hits::list(index, arrays, arrays.alive, query, k, slots, scores)?)
}
