// Adding a vector under a key: `add_keyed` of vecq's store.rs.
#![tactic(auto)]

ghost use Rattle.std.specs.Prelude.{◌≡◌};
ghost use Rattle.index.specs.Lent.{contents_mut, SameLent};
ghost use Rattle.index.specs.Step as Step;
ghost use Rattle.index.specs.Step.{item_of};
ghost use Rattle.index.specs.Call.{call};
ghost use Rattle.index.specs.Verdict.{verdict};
ghost use Rattle.index.specs.Answers.{added};

use index::{Added, Index, LentMut};
use place::Adding;
use refusal::Refusal;

// Overwrites the first held slot of the key, or appends one where the key has none. `present` is the present year: a slot that must stay is not overwritten.
pub fn add_keyed(
    index: Index,
    arrays: &mut LentMut<'_>,
    key: u64,
    vector: &[f32],
    year: u16,
    present: u16,
) -> Result<Added, Refusal>
    ensures same { SameLent arrays.old arrays.new }
    ensures answers { added index (verdict result) (contents_mut arrays.new)
        ≡ call index (contents_mut arrays.old) (Step.add_keyed key (item_of vector.now) year present) }
{
    place::put(index, arrays, Adding::Keyed(key, present), vector, year)
}
