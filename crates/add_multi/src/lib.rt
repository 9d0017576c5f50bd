// Adding one more vector under a key: `add_keyed_multi` of vecq's store.rs.
#![tactic(auto)]

ghost use Rattle.std.specs.Prelude.{◌≡◌};
ghost use Rattle.index.specs.Lent.{contents_mut, SameLent};
ghost use Rattle.index.specs.Step as Step;
ghost use Rattle.index.specs.Step.{item_of};
ghost use Rattle.index.specs.Call.{call};
ghost use Rattle.index.specs.Verdict.{verdict};
ghost use Rattle.index.specs.Answers.{added};

use index::{Added, Index, LentMut};
use place::Adding;
use refusal::Refusal;

// Appends a slot to those that the key has: it is the last one in held order.
pub fn add_keyed_multi(
    index: Index,
    arrays: &mut LentMut<'_>,
    key: u64,
    vector: &[f32],
    year: u16,
) -> Result<Added, Refusal>
    ensures same { SameLent arrays.old arrays.new }
    ensures answers { added index (verdict result) (contents_mut arrays.new)
        ≡ call index (contents_mut arrays.old) (Step.add_multi key (item_of vector.now) year) }
{
    place::put(index, arrays, Adding::Multi(key), vector, year)
}
