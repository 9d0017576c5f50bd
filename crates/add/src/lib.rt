// Adding a vector without a key: `add` of vecq's store.rs.
#![tactic(auto)]

ghost use Rattle.std.specs.Prelude.{◌≡◌};
ghost use Rattle.index.specs.Lent.{contents_mut, SameLent};
ghost use Rattle.index.specs.Step as Step;
ghost use Rattle.index.specs.Step.{item_of};
ghost use Rattle.index.specs.Call.{call};
ghost use Rattle.index.specs.Verdict.{verdict};
ghost use Rattle.index.specs.Answers.{added};

use index::{Added, Index, LentMut};
use place::Adding;
use refusal::Refusal;

// Appends a slot without a key.
pub fn add(
    index: Index,
    arrays: &mut LentMut<'_>,
    vector: &[f32],
    year: u16,
) -> Result<Added, Refusal>
    ensures same { SameLent arrays.old arrays.new }
    ensures answers { added index (verdict result) (contents_mut arrays.new)
        ≡ call index (contents_mut arrays.old) (Step.add (item_of vector.now) year) }
{
    place::put(index, arrays, Adding::Unkeyed, vector, year)
}
