// Rising held order (document 01, compaction): each key's slots hold 0, 1, 2 in slot order. A slot holds the position after that of the last lower slot with
// its key, by the entries of the crate previous.
#![tactic(auto)]

ghost use Rattle.std.specs.Prelude.{◌≡◌, ℕ, suc, ◌≤◌, ◌<◌, length, get_or};
ghost use Rattle.lists.specs.Lists.{tab, below};
ghost use Rattle.held_order.specs.Restored.{rising_position, restored};
ghost use Rattle.held_order.specs.Placed.{after_entry, Placed};

// The slots themselves, as a list. That they are at most 65,536 is a clause here and below: a struct of the slice and a ghost field would be longer.
fn number(held: &mut [u32])
    requires { length held.old ≤ 65536 }
    ensures { held.new ≡ below (length held.old) }
{
    for (i, slot) in held.iter_mut().enumerate() {
        *slot = i as u32;
    }
}

// The position after that of an entry's slot; 0 for the entry 0, which stands for none (previous says why).
fn next_position(held: &[u32], entry: usize) -> u32
    requires { (entry ≤ length held.now) × ((j : ℕ) → entry ≡ suc j → get_or held.now j 0 < 65536) }
    ensures { result ≡ after_entry held.now entry }
{
    if entry == 0 {
        return 0;
    }
    held[entry - 1] + 1
}

// Gives each slot the position after that of its entry's slot. By index in `held`: a position is read that an earlier step wrote.
fn place_all(before: &[u32], held: &mut [u32])
    requires { (length held.old ≤ length before.now) × (length held.old ≤ 65536) × ((j : ℕ) → j < length held.old → get_or before.now j 0 ≤ j) }
    ensures { Placed before.now held.new (length held.old) }
{
    for (i, entry) in before[..held.len()].iter().enumerate() {
        held[i] = next_position(held, *entry as usize);
    }
}

// Makes held order rise in all slots of `held`.
fn restore(keys: &[u64], keyed: &[bool], held: &mut [u32], before: &mut [u32])
    requires { (length before.old ≡ length held.old) × (length held.old ≤ 65536) }
    ensures { held.new ≡ tab (rising_position keys.now keyed.now) (length held.old) }
{
    number(held);
    previous::link(keys, keyed, held, before);
    place_all(before, held);
}

// Makes held order rise in at most N slots, by way of an array for so many.
fn restore_in<const N: usize>(keys: &[u64], keyed: &[bool], held: &mut [u32])
    requires { (length held.old ≤ N) × (N ≤ 65536) }
    ensures { held.new ≡ tab (rising_position keys.now keyed.now) (length held.old) }
{
    let n = held.len();
    let mut before = [0u32; N];
    let before = &mut before[..];
    restore(keys, keyed, held, &mut before[..n]);
}

// Makes held order rise in the first n slots. Nothing where they are more than 65,536 or than there are places. Few by way of a small array: clearing the
// large one would take longer.
#[tactic(auto, unfolding(crate::specs::Restored::restored))]
pub fn restore_order(keys: &[u64], keyed: &[bool], held: &mut [u32], n: usize)
    ensures { held.new ≡ restored keys.now keyed.now n held.old }
{
    if held.len() < n {
        return;
    }
    if n <= 1024 {
        restore_in::<1024>(keys, keyed, &mut held[..n]);
    } else if n <= 65536 {
        restore_in::<65536>(keys, keyed, &mut held[..n]);
    }
}
