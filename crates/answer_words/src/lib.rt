// Answers as words of 64 bits, for C and Rust, that several of the `.._exports` libraries give: the eight fields of the record are the first eight words
// of one lent slice (crate words), an answer of one word is the first of another.
#![tactic(auto)]

ghost use Rattle.std.specs.Prelude.{◌≡◌, [], ◌∷◌, ◌≤◌, length};
ghost use Rattle.lists.specs.Lists.{over};
ghost use Rattle.refusal.specs.Refusal.{fault_of};
ghost use Rattle.index.specs.Verdict.{verdict};
ghost use Rattle.index.specs.Step.{first_of};
ghost use Rattle.words.specs.Words.{record_words, words_of};
ghost use Rattle.words.specs.Put.{put, put_words, put_count, put_made, put_both, put_next, put_added, put_changed, Puts};

use index::{Added, Index};
use refusal::Refusal;

fn put_record(fields: &mut [u64], index: Index)
    requires { record_words ≤ length fields.old }
    ensures { fields.new ≡ over (words_of index) fields.old }
{
    fields[0] = index.dim as u64;
    fields[1] = index.working_dim as u64;
    fields[2] = index.seed;
    fields[3] = index.bits as u64;
    fields[4] = index.residual as u64;
    fields[5] = index.n as u64;
    fields[6] = index.live as u64;
    fields[7] = index.cascade as u64;
}

// The new record, and a word.
fn put_next(index: Index, word: u64, fields: &mut [u64], answer: &mut [u64]) -> u8
    ensures { put_both result fields.new answer.new ≡ put_next index (word ∷ []) fields.old answer.old }
{
    if (fields.len() < words::RECORD_WORDS) | answer.is_empty() {
        return 13;
    }
    put_record(fields, index);
    put_word(word, answer)
}

// Each of these answers 0 and writes its words, or answers the refusal's number, 13 where places are too few, and writes none.

// The one word of an answer.
pub fn put_word(word: u64, answer: &mut [u64]) -> u8
    ensures { put result answer.new ≡ put_words 0 (word ∷ []) answer.old }
{
    if answer.is_empty() {
        return 13;
    }
    answer[0] = word;
    0
}

// How many hits, or bytes.
pub fn put_count(counted: Result<usize, Refusal>, answer: &mut [u64]) -> u8
    ensures { put result answer.new ≡ put_count (verdict counted) answer.old }
{
    match counted {
        Ok(count) => put_word(count as u64, answer),
        Err(refusal) => u8::from(refusal),
    }
}

// The refusal of making and reading where the record has no place: their own tests come first.
#[tactic(auto, unfolding(index::specs::Step::first_of))]
pub fn without_place(check: Result<(), Refusal>) -> u8
    ensures { result ≡ first_of (fault_of check ∷ 13 ∷ []) }
{
    match check {
        Ok(()) => 13,
        Err(refusal) => u8::from(refusal),
    }
}

// ---- A refusal is of any type that gives a number.

// The words of the record.
#[tactic(auto, unfolding(words::specs::Put::Puts))]
pub fn put_made<R: Into<u8>>(made: Result<Index, R>, fields: &mut [u64]) -> u8
    ensures { Puts R.converts made (λ t. put_made t fields.old) (put result fields.new) }
{
    match made {
        Ok(index) => {
            if words::RECORD_WORDS <= fields.len() {
                put_record(fields, index);
                return 0;
            }
            13
        }
        Err(refused) => refused.into(),
    }
}

// The words of the record, and the slot.
#[tactic(auto, unfolding(words::specs::Put::Puts))]
pub fn put_added<R: Into<u8>>(added: Result<Added, R>, fields: &mut [u64], answer: &mut [u64]) -> u8
    ensures { Puts R.converts added (λ t. put_added t fields.old answer.old)
        (put_both result fields.new answer.new) }
{
    match added {
        Ok(added) => put_next(added.index, added.slot as u64, fields, answer),
        Err(refusal) => refusal.into(),
    }
}

// The words of the record, and 1 for yes; 0 for no, which has no new record.
#[tactic(auto, unfolding(words::specs::Put::Puts))]
pub fn put_changed<R: Into<u8>>(
    changed: Result<Option<Index>, R>,
    fields: &mut [u64],
    answer: &mut [u64],
) -> u8
    ensures { Puts R.converts changed (λ t. put_changed t fields.old answer.old)
        (put_both result fields.new answer.new) }
{
    match changed {
        Ok(Some(index)) => put_next(index, 1, fields, answer),
        Ok(None) => put_word(0, answer),
        Err(refusal) => refusal.into(),
    }
}
