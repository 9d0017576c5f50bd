// Scores of slots under a prepared query (store.rs), and the number that orders them.
#![tactic(auto)]

ghost use Rattle.std.specs.Prelude.{◌≡◌};
ghost use Rattle.std.proofs.Math.Option.{none, some};
ghost use Rattle.codes.specs.Stage.{stage};
ghost use Rattle.score.specs.Score.{slot_score, judged};
ghost use Rattle.score.specs.Order.{order_number};

use score::Scored;

// The answer for a score: a NaN is refused.
#[tactic(auto, unfolding(score::specs::Score::judged))]
fn judged(score: f32) -> Scored
    ensures { result ≡ judged score }
{
    if score.is_nan() {
        Scored::Refused(12)
    } else {
        Scored::Score(score)
    }
}

// The score of a slot that has one stage.
#[tactic(auto, unfolding(score::specs::Score::slot_score))]
pub fn score(bits: u8, centroids: &[f32], query: &[f32], scale: u32, block: &[u8]) -> Scored
    ensures { result ≡ judged (slot_score bits centroids.now query.now (stage scale block.now) none) }
{
    judged(kernels::stage_score(bits, centroids, query, scale, block))
}

// The score of a slot that has a residual stage too.
#[tactic(auto, unfolding(score::specs::Score::slot_score))]
pub fn score_residual(
    bits: u8,
    centroids: &[f32],
    query: &[f32],
    scale: u32,
    block: &[u8],
    scale2: u32,
    block2: &[u8],
) -> Scored
    ensures { result
        ≡ judged
        (slot_score bits centroids.now query.now (stage scale block.now)
        (some (stage scale2 block2.now))) }
{
    let first = kernels::stage_score(bits, centroids, query, scale, block);
    let residual = kernels::stage_score(bits, centroids, query, scale2, block2);
    judged(first + residual)
}

// The order number of a score. -0 goes with the scores that are not negative.
#[tactic(auto, unfolding(score::specs::Order::order_of_bits, score::specs::Order::ranked_bits))]
pub fn order_number(score: f32) -> u32
    ensures { result ≡ order_number score }
{
    let bits = pattern::to_bits(score);
    if 0x8000_0000 < bits {
        return 0xFFFF_FFFF - bits;
    }
    bits % 0x8000_0000 + 0x8000_0000
}
