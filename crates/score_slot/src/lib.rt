// The score of one slot under a query (document 01, store.rs, `score`). A dead slot is scored too, so no live mark is read but by the first test.
#![tactic(auto)]

ghost use Rattle.std.specs.Prelude.{◌≡◌, cond, true, ◌≤◌, length, get_or};
ghost use Rattle.std.proofs.Math.Option.{none, some};
ghost use Rattle.padding.specs.Rotatable.{rotatable};
ghost use Rattle.encode.specs.Coded.{code_in};
ghost use Rattle.score.specs.Score.{slot_score, judged};
ghost use Rattle.index.specs.Lent.{contents};
ghost use Rattle.index.specs.State.{header_of, stage_at};
ghost use Rattle.index.specs.Codec.{score_of};
ghost use Rattle.index.specs.Step as Step;
ghost use Rattle.index.specs.Step.{query_of};
ghost use Rattle.index.specs.Call.{call};
ghost use Rattle.index.specs.Answers.{result_of, scored};
ghost use Rattle.score_slot.specs.Told.{told};

use index::{Index, Lent};
use refusal::Refusal;
use score::Scored;

// ---- the slot

// The scale of a slot; 0 past the end.
fn scale_at(scales: &[u32], slot: usize) -> u32
    ensures { result ≡ get_or scales.now slot 0 }
{
    scales.get(slot).copied().unwrap_or(0)
}

// The score of a slot under a prepared query. At a width other than 4, 5 and 6 no block is looked at.
fn score_prepared(
    index: Index,
    arrays: &Lent<'_>,
    slot: usize,
    centroids: &[f32],
    query: &[f32],
) -> Scored
    ensures { result ≡ judged (slot_score index.bits centroids.now query.now
        (stage_at (header_of index) arrays.now.scales.now arrays.now.codes.now slot)
        (cond index.residual (some (stage_at (header_of index) arrays.now.scales2.now arrays.now.codes2.now slot)) none)) }
{
    let size = codes::bytes_per_vector(padding::padded_dim(index.working_dim), index.bits);
    let scale = scale_at(arrays.scales, slot);
    let block = codes::slot_codes(arrays.codes, slot, size);
    if index.residual {
        let scale2 = scale_at(arrays.scales2, slot);
        let block2 = codes::slot_codes(arrays.codes2, slot, size);
        return scoring::score_residual(index.bits, centroids, query, scale, block, scale2, block2);
    }
    scoring::score(index.bits, centroids, query, scale, block)
}

// The score of a slot under a query that is not refused, by the centroids of the width.
fn score_by_width(index: Index, arrays: &Lent<'_>, slot: usize, query: &[f32]) -> Scored
    requires width { (4 ≤ index.bits) × (index.bits ≤ 6) }
    requires can_rotate { rotatable index.working_dim (length query.now) 4096 ≡ true }
    ensures { result ≡ judged (score_of (header_of index) (query_of query.now) (code_in index.residual
        (stage_at (header_of index) arrays.now.scales.now arrays.now.codes.now slot)
        (stage_at (header_of index) arrays.now.scales2.now arrays.now.codes2.now slot))) }
{
    let n = lloyd::levels(index.bits);
    let centroids = lloyd::centroids(index.bits);
    let padded = padding::padded_dim(index.working_dim);
    let mut prepared = [0.0f32; 4096];
    unit::prepare(index.working_dim, index.seed, query, &mut prepared);
    score_prepared(index, arrays, slot, &centroids[0..n], &prepared[0..padded])
}

// ---- the call

// The score of a slot, or the refusal before any score: 13, 1, 2, 3 and 9 in this order.
fn try_score(index: Index, arrays: &Lent<'_>, slot: usize, query: &[f32]) -> Result<Scored, Refusal>
    ensures { result_of index (contents arrays.now) (scored (told result))
        ≡ call index (contents arrays.now) (Step.score slot (query_of query.now)) }
{
    fit::check(index, arrays)?;
    vectors::check(index.dim, index.working_dim, query)?;
    if index.n <= slot {
        return Err(Refusal::NoSlot);
    }
    Ok(score_by_width(index, arrays, slot, query))
}

// The score of a slot under a query, refused by 13, 1, 2, 3, 9 and 12 in this order. The answer is the enum that document 01 names for it.
pub fn score(index: Index, arrays: &Lent<'_>, slot: usize, query: &[f32]) -> Scored
    ensures { result_of index (contents arrays.now) (scored result)
        ≡ call index (contents arrays.now) (Step.score slot (query_of query.now)) }
{
    match try_score(index, arrays, slot, query) {
        Ok(scored) => scored,
        Err(refusal) => Scored::Refused(u8::from(refusal)),
    }
}
