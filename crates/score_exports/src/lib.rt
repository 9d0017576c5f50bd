// The score of one slot, for C and Rust. `fields` are the words of the record (crate words); the score's pattern goes to the first place of `answer`.
#![tactic(auto)]

ghost use Rattle.std.specs.Prelude.{◌≡◌};
ghost use Rattle.index.specs.Arrays.{lent};
ghost use Rattle.index.specs.Step as Step;
ghost use Rattle.index.specs.Step.{query_of};
ghost use Rattle.index.specs.Answers as Answers;
ghost use Rattle.words.specs.Put.{put, put_answer};
ghost use Rattle.words.specs.Exports.{left, left_by};

use index::Lent;
use score::Scored;

fn put_scored(scored: Scored, answer: &mut [u64]) -> u8
    ensures { put result answer.new ≡ put_answer (Answers.scored scored) answer.old }
{
    match scored {
        Scored::Score(score) => answer_words::put_word(pattern::to_bits(score) as u64, answer),
        Scored::Refused(number) => number,
    }
}

#[unsafe(no_mangle)]
pub extern "C" fn vecq_raw_score(
    fields: &[u64],
    answer: &mut [u64],
    codes: &[u8],
    scales: &[u32],
    keys: &[u64],
    keyed: &[bool],
    held: &[u32],
    alive: &[u64],
    codes2: &[u8],
    scales2: &[u32],
    years: &[u16],
    slot: usize,
    query: &[f32],
) -> u8
    ensures { let a = lent codes.now scales.now keys.now keyed.now held.now alive.now codes2.now scales2.now years.now in
        let op = Step.score slot (query_of query.now) in
        left result fields.now answer.new a ≡ left_by 1 op fields.now answer.old a }
{
    let Some(index) = words::record_beside(fields, answer, 1) else {
        return 13;
    };
    let arrays = Lent {
        codes,
        scales,
        keys,
        keyed,
        held,
        alive,
        codes2,
        scales2,
        years,
    };
    let scored = score_slot::score(index, &arrays, slot, query);
    put_scored(scored, answer)
}
