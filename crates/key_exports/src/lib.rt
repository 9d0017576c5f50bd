// The questions about keys, for C and Rust. `fields` are the words of the record (crate words); the answer goes to the first places of `answer`.
// Each call has a name of its own, for C.
#![tactic(auto)]

ghost use Rattle.std.specs.Prelude.{◌≡◌, [], ◌∷◌};
ghost use Rattle.index.specs.Arrays.{lent};
ghost use Rattle.index.specs.Verdict.{verdict};
ghost use Rattle.index.specs.Step.{key_of, contains, slot_of};
ghost use Rattle.index.specs.Answers as Answers;
ghost use Rattle.index.specs.Answers.{key_is, held_is};
ghost use Rattle.words.specs.Put.{put, put_words, put_answer};
ghost use Rattle.words.specs.Exports.{left, left_by};

use index::Lent;
use refusal::Refusal;

// A word that there might not be, after a 1.
fn put_some(word: u64, answer: &mut [u64]) -> u8
    ensures { put result answer.new ≡ put_words 0 (1 ∷ word ∷ []) answer.old }
{
    if answer.len() < 2 {
        return 13;
    }
    answer[0] = 1;
    answer[1] = word;
    0
}

fn put_keyed(keyed: Result<Option<u64>, Refusal>, answer: &mut [u64]) -> u8
    ensures { put result answer.new ≡ put_answer (key_is (verdict keyed)) answer.old }
{
    match keyed {
        Ok(Some(key)) => put_some(key, answer),
        Ok(None) => answer_words::put_word(0, answer),
        Err(refusal) => u8::from(refusal),
    }
}

fn put_asked(asked: Result<bool, Refusal>, answer: &mut [u64]) -> u8
    ensures { put result answer.new ≡ put_answer (Answers.asked (verdict asked)) answer.old }
{
    match asked {
        Ok(yes) => answer_words::put_word(yes as u64, answer),
        Err(refusal) => u8::from(refusal),
    }
}

// As `put_keyed`; the specification has an answer for keys (`key_is`) and another for slots.
fn put_held(held: Result<Option<usize>, Refusal>, answer: &mut [u64]) -> u8
    ensures { put result answer.new ≡ put_answer (held_is (verdict held)) answer.old }
{
    match held {
        Ok(Some(slot)) => put_some(slot as u64, answer),
        Ok(None) => answer_words::put_word(0, answer),
        Err(refusal) => u8::from(refusal),
    }
}

// 1 and the key, or 0 for none; 0 leaves the second place as it was.
#[unsafe(no_mangle)]
pub extern "C" fn vecq_raw_key_of(
    fields: &[u64],
    answer: &mut [u64],
    codes: &[u8],
    scales: &[u32],
    keys: &[u64],
    keyed: &[bool],
    held: &[u32],
    alive: &[u64],
    codes2: &[u8],
    scales2: &[u32],
    years: &[u16],
    slot: usize,
) -> u8
    ensures { let a = lent codes.now scales.now keys.now keyed.now held.now alive.now codes2.now scales2.now years.now in
        left result fields.now answer.new a ≡ left_by 2 (key_of slot) fields.now answer.old a }
{
    let Some(index) = words::record_beside(fields, answer, 2) else {
        return 13;
    };
    let arrays = Lent {
        codes,
        scales,
        keys,
        keyed,
        held,
        alive,
        codes2,
        scales2,
        years,
    };
    let keyed_as = keys::key_of(index, &arrays, slot);
    put_keyed(keyed_as, answer)
}

// 1 for yes, 0 for no.
#[unsafe(no_mangle)]
pub extern "C" fn vecq_raw_contains_key(
    fields: &[u64],
    answer: &mut [u64],
    codes: &[u8],
    scales: &[u32],
    keys: &[u64],
    keyed: &[bool],
    held: &[u32],
    alive: &[u64],
    codes2: &[u8],
    scales2: &[u32],
    years: &[u16],
    key: u64,
) -> u8
    ensures { let a = lent codes.now scales.now keys.now keyed.now held.now alive.now codes2.now scales2.now years.now in
        left result fields.now answer.new a ≡ left_by 1 (contains key) fields.now answer.old a }
{
    let Some(index) = words::record_beside(fields, answer, 1) else {
        return 13;
    };
    let arrays = Lent {
        codes,
        scales,
        keys,
        keyed,
        held,
        alive,
        codes2,
        scales2,
        years,
    };
    let contained = keys::contains_key(index, &arrays, key);
    put_asked(contained, answer)
}

// 1 and the slot, or 0 for none; 0 leaves the second place as it was.
#[unsafe(no_mangle)]
pub extern "C" fn vecq_raw_slot_at(
    fields: &[u64],
    answer: &mut [u64],
    codes: &[u8],
    scales: &[u32],
    keys: &[u64],
    keyed: &[bool],
    held: &[u32],
    alive: &[u64],
    codes2: &[u8],
    scales2: &[u32],
    years: &[u16],
    key: u64,
    position: usize,
) -> u8
    ensures { let a = lent codes.now scales.now keys.now keyed.now held.now alive.now codes2.now scales2.now years.now in
        left result fields.now answer.new a ≡ left_by 2 (slot_of key position) fields.now answer.old a }
{
    let Some(index) = words::record_beside(fields, answer, 2) else {
        return 13;
    };
    let arrays = Lent {
        codes,
        scales,
        keys,
        keyed,
        held,
        alive,
        codes2,
        scales2,
        years,
    };
    let held_at = keys::slot_at(index, &arrays, key, position);
    put_held(held_at, answer)
}
