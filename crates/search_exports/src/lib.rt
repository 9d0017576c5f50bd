// The three searches, for C and Rust. `fields` are the words of the record (crate words); how many hits goes to the first place of `answer`.
// Each call has a name of its own, for C.
#![tactic(auto)]

ghost use Rattle.std.specs.Prelude.{◌≡◌, min, length};
ghost use Rattle.index.specs.Arrays.{lent};
ghost use Rattle.index.specs.Step as Step;
ghost use Rattle.index.specs.Step.{query_of};
ghost use Rattle.index.specs.Answers.{how_many, found, found_keyed, LaterKept};
ghost use Rattle.words.specs.Exports.{count_in_words, word_count, answer_beside};

use index::Lent;

#[unsafe(no_mangle)]
pub extern "C" fn vecq_raw_search(
    fields: &[u64],
    answer: &mut [u64],
    codes: &[u8],
    scales: &[u32],
    keys: &[u64],
    keyed: &[bool],
    held: &[u32],
    alive: &[u64],
    codes2: &[u8],
    scales2: &[u32],
    years: &[u16],
    query: &[f32],
    k: usize,
    slots: &mut [u32],
    scores: &mut [f32],
) -> u8
    ensures answers { let a = lent codes.now scales.now keys.now keyed.now held.now alive.now codes2.now scales2.now years.now in
        let op = Step.search (query_of query.now) k (min (length slots.old) (length scores.old)) in
        found (count_in_words result answer.new) slots.new scores.new
        ≡ answer_beside op a fields.now answer.old }
    ensures answer_kept { LaterKept (word_count result) answer.old answer.new }
    ensures lists_kept { let m = how_many (count_in_words result answer.new) in
        LaterKept m slots.old slots.new × LaterKept m scores.old scores.new }
{
    let Some(index) = words::record_beside(fields, answer, 1) else {
        return 13;
    };
    let arrays = Lent {
        codes,
        scales,
        keys,
        keyed,
        held,
        alive,
        codes2,
        scales2,
        years,
    };
    let found = search::search(index, &arrays, query, k, slots, scores);
    answer_words::put_count(found, answer)
}

#[unsafe(no_mangle)]
pub extern "C" fn vecq_raw_search_keyed(
    fields: &[u64],
    answer: &mut [u64],
    codes: &[u8],
    scales: &[u32],
    keys: &[u64],
    keyed: &[bool],
    held: &[u32],
    alive: &[u64],
    codes2: &[u8],
    scales2: &[u32],
    years: &[u16],
    query: &[f32],
    k: usize,
    names: &mut [u64],
    scores: &mut [f32],
) -> u8
    ensures answers { let a = lent codes.now scales.now keys.now keyed.now held.now alive.now codes2.now scales2.now years.now in
        let op = Step.search_keyed (query_of query.now) k (min (length names.old) (length scores.old)) in
        found_keyed (count_in_words result answer.new) names.new scores.new
        ≡ answer_beside op a fields.now answer.old }
    ensures answer_kept { LaterKept (word_count result) answer.old answer.new }
    ensures lists_kept { let m = how_many (count_in_words result answer.new) in
        LaterKept m names.old names.new × LaterKept m scores.old scores.new }
{
    let Some(index) = words::record_beside(fields, answer, 1) else {
        return 13;
    };
    let arrays = Lent {
        codes,
        scales,
        keys,
        keyed,
        held,
        alive,
        codes2,
        scales2,
        years,
    };
    let found_keyed = search_keyed::search_keyed(index, &arrays, query, k, names, scores);
    answer_words::put_count(found_keyed, answer)
}

#[unsafe(no_mangle)]
pub extern "C" fn vecq_raw_search_cascade(
    fields: &[u64],
    answer: &mut [u64],
    codes: &[u8],
    scales: &[u32],
    keys: &[u64],
    keyed: &[bool],
    held: &[u32],
    alive: &[u64],
    codes2: &[u8],
    scales2: &[u32],
    years: &[u16],
    query: &[f32],
    k: usize,
    r: usize,
    slots: &mut [u32],
    scores: &mut [f32],
) -> u8
    ensures answers { let a = lent codes.now scales.now keys.now keyed.now held.now alive.now codes2.now scales2.now years.now in
        let op = Step.search_cascade (query_of query.now) k r (min (length slots.old) (length scores.old)) in
        found (count_in_words result answer.new) slots.new scores.new
        ≡ answer_beside op a fields.now answer.old }
    ensures answer_kept { LaterKept (word_count result) answer.old answer.new }
    ensures lists_kept { let m = how_many (count_in_words result answer.new) in
        LaterKept m slots.old slots.new × LaterKept m scores.old scores.new }
{
    let Some(index) = words::record_beside(fields, answer, 1) else {
        return 13;
    };
    let arrays = Lent {
        codes,
        scales,
        keys,
        keyed,
        held,
        alive,
        codes2,
        scales2,
        years,
    };
    let found_cascade = search_cascade::search_cascade(index, &arrays, query, k, r, slots, scores);
    answer_words::put_count(found_cascade, answer)
}
