// Relabelling: the call that changes keys, and no code. Keys are found by scanning.
#![tactic(auto)]

ghost use Rattle.std.specs.Prelude.{◌≡◌, ◌≤◌, length};
ghost use Rattle.index.specs.Arrays.{lent};
ghost use Rattle.index.specs.Verdict.{verdict};
ghost use Rattle.index.specs.Step as Step;
ghost use Rattle.index.specs.Call.{call};
ghost use Rattle.index.specs.Answers.{changed};
ghost use Rattle.slot_keys.specs.Has.{slot_has};
ghost use Rattle.held.specs.Held.{held_count};
ghost use Rattle.relabel.specs.May.{may_change};
ghost use Rattle.remarking.specs.Replaced.{replaced_where};

use index::{Index, Lent};
use refusal::Refusal;

// Whether the slots of the old key may have the new one: there are some, and the new key is the old one or has none.
fn may_relabel(keys: &[u64], keyed: &[bool], n: usize, old: u64, new: u64) -> bool
    ensures { result ≡ may_change (held_count keys.now keyed.now n old) (held_count keys.now keyed.now n new) old new }
{
    if held::held_count(keys, keyed, n, old) == 0 {
        return false;
    }
    if old == new {
        return true;
    }
    held::held_count(keys, keyed, n, new) == 0
}

// Gives the slots of the old key the new one. `slot_keys::has_key` would read `keys`, which the loop changes.
fn relabel_slots(keys: &mut [u64], keyed: &[bool], n: usize, old: u64, new: u64)
    requires { n ≤ length keys.old }
    ensures { keys.new ≡ replaced_where (slot_has keys.old keyed.now old) n new 0 keys.old }
{
    for (i, key) in keys[..n].iter_mut().enumerate() {
        if *key == old && slot_keys::is_keyed(keyed, i) {
            *key = new;
        }
    }
}

// Yes, with the record, where the old key has slots and the new one is it or has none; then they have the new key.
// The arrays come one by one, since keys alone change here: as one struct all would have to be lent to be changed, and C lends the others to be read.
pub fn relabel(
    index: Index,
    codes: &[u8],
    scales: &[u32],
    keys: &mut [u64],
    keyed: &[bool],
    held: &[u32],
    alive: &[u64],
    codes2: &[u8],
    scales2: &[u32],
    years: &[u16],
    old: u64,
    new: u64,
) -> Result<Option<Index>, Refusal>
    ensures { changed index (verdict result) (lent codes.now scales.now keys.new keyed.now held.now alive.now codes2.now scales2.now years.now)
        ≡ call index (lent codes.now scales.now keys.old keyed.now held.now alive.now codes2.now scales2.now years.now)
        (Step.relabel old new) }
{
    let arrays = Lent {
        codes,
        scales,
        keys: &*keys,
        keyed,
        held,
        alive,
        codes2,
        scales2,
        years,
    };
    fit::check(index, &arrays)?;
    if may_relabel(keys, keyed, index.n, old, new) {
        relabel_slots(keys, keyed, index.n, old, new);
        return Ok(Some(index));
    }
    Ok(None)
}
