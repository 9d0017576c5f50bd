// The key questions: the key of a slot, and the slots of a key, found by scanning (document 01). They change nothing.
// Where record and arrays fit a slot with a key is live, so no live mark is read.
#![tactic(auto)]

ghost use Rattle.std.specs.Prelude.{◌≡◌};
ghost use Rattle.index.specs.Lent.{contents};
ghost use Rattle.index.specs.Verdict.{verdict};
ghost use Rattle.index.specs.Step.{key_of, contains, slot_of};
ghost use Rattle.index.specs.Call.{call};
ghost use Rattle.index.specs.Answers.{result_of, key_is, asked, held_is};

use index::{Index, Lent};
use refusal::Refusal;

// The key of a slot; none past the slots in use.
pub fn key_of(index: Index, arrays: &Lent<'_>, slot: usize) -> Result<Option<u64>, Refusal>
    ensures { let a = contents arrays.now in
        result_of index a (key_is (verdict result)) ≡ call index a (key_of slot) }
{
    fit::check(index, arrays)?;
    let keyed = slot < index.n && slot_keys::is_keyed(arrays.keyed, slot);
    Ok(keyed.then_some(slot_keys::key_word(arrays.keys, slot)))
}

// Whether a key has a slot.
pub fn contains_key(index: Index, arrays: &Lent<'_>, key: u64) -> Result<bool, Refusal>
    ensures { let a = contents arrays.now in
        result_of index a (asked (verdict result)) ≡ call index a (contains key) }
{
    fit::check(index, arrays)?;
    Ok(0 < held::held_count(arrays.keys, arrays.keyed, index.n, key))
}

// The slot that holds a position of a key.
pub fn slot_at(
    index: Index,
    arrays: &Lent<'_>,
    key: u64,
    position: usize,
) -> Result<Option<usize>, Refusal>
    ensures { let a = contents arrays.now in
        result_of index a (held_is (verdict result)) ≡ call index a (slot_of key position) }
{
    fit::check(index, arrays)?;
    let slot = held::held_slot(
        arrays.keys,
        arrays.keyed,
        arrays.held,
        index.n,
        key,
        position,
    );
    Ok((slot < index.n).then_some(slot))
}
