// The two removals: the slots of a key, and one slot. They change marks, and no code. Keys are found by scanning. `present` is the present year: a slot that must
// stay is not removed.
#![tactic(auto)]

ghost use Rattle.std.specs.Prelude.{◌≡◌, cond, ◌&&◌, ◌-◌, ◌≤◌, ◌<◌, length, get_or, ltb};
ghost use Rattle.marks.specs.Live.{marks_in};
ghost use Rattle.index.specs.Arrays.{lent};
ghost use Rattle.index.specs.Verdict.{verdict};
ghost use Rattle.index.specs.Step as Step;
ghost use Rattle.index.specs.Call.{call};
ghost use Rattle.index.specs.Answers.{changed};
ghost use Rattle.slot_keys.specs.Has.{slot_has};
ghost use Rattle.held.specs.Held.{held_count, held_slot};
ghost use Rattle.removal.specs.Dead.{lent_marks, dead_at, dead_where, placed_at};

use index::{Index, Lent};
use refusal::Refusal;

// The three arrays that change go as three slices: a struct of them would be made of the lent slices at each of the two calls below, and its fields taken apart again for `marks` and `slot_keys`.

// Leaves a slot dead.
fn remove_slot(keyed: &mut [bool], held: &mut [u32], alive: &mut [u64], slot: usize)
    requires { (slot < length keyed.old) × (slot < length held.old) }
    ensures { lent_marks keyed.new held.new alive.new ≡ dead_at slot (lent_marks keyed.old held.old alive.old) }
{
    keyed[slot] = false;
    held[slot] = 0;
    marks::set_live_mark(alive, slot, false);
}

// Leaves a slot dead if it has the key.
fn remove_slot_of(
    keys: &[u64],
    keyed: &mut [bool],
    held: &mut [u32],
    alive: &mut [u64],
    slot: usize,
    key: u64,
)
    requires { (slot < length keyed.old) × (slot < length held.old) }
    ensures { lent_marks keyed.new held.new alive.new
        ≡ cond (slot_has keys.now keyed.old key slot) (dead_at slot (lent_marks keyed.old held.old alive.old))
        (lent_marks keyed.old held.old alive.old) }
{
    if slot_keys::has_key(keys, keyed, slot, key) {
        remove_slot(keyed, held, alive, slot);
    }
}

// Leaves the slots of the key dead. By index: three arrays change at it, and of what a zipped iter_mut() lends nothing is known after the write.
fn remove_slots(
    keys: &[u64],
    keyed: &mut [bool],
    held: &mut [u32],
    alive: &mut [u64],
    n: usize,
    key: u64,
)
    requires { (n ≤ length keyed.old) × (n ≤ length held.old) × (n ≤ length (marks_in alive.old)) }
    ensures { lent_marks keyed.new held.new alive.new
        ≡ dead_where (slot_has keys.now keyed.old key) n (lent_marks keyed.old held.old alive.old) }
{
    for i in 0..n {
        remove_slot_of(keys, keyed, held, alive, i, key);
    }
}

// Yes, with the record, where the key has slots; then they are dead.
// The arrays come one by one here and below, since some alone change: as one struct all would have to be lent to be changed, and C lends the others to be read.
pub fn remove_keyed(
    index: Index,
    codes: &[u8],
    scales: &[u32],
    keys: &[u64],
    keyed: &mut [bool],
    held: &mut [u32],
    alive: &mut [u64],
    codes2: &[u8],
    scales2: &[u32],
    years: &[u16],
    key: u64,
    present: u16,
) -> Result<Option<Index>, Refusal>
    ensures { changed index (verdict result) (lent codes.now scales.now keys.now keyed.new held.new alive.new codes2.now scales2.now years.now)
        ≡ call index (lent codes.now scales.now keys.now keyed.old held.old alive.old codes2.now scales2.now years.now)
        (Step.remove key present) }
{
    let arrays = Lent {
        codes,
        scales,
        keys,
        keyed: &*keyed,
        held: &*held,
        alive: &*alive,
        codes2,
        scales2,
        years,
    };
    fit::check(index, &arrays)?;
    let many = held::held_count(keys, keyed, index.n, key);
    if many == 0 {
        return Ok(None);
    }
    if retention::key_must_stay(keys, keyed, years, index.n, key, present) {
        return Err(Refusal::MustStay);
    }
    remove_slots(keys, keyed, held, alive, index.n, key);
    Ok(Some(Index {
        live: index.live - many,
        ..index
    }))
}

// ---- removal of one slot

// Whether a slot is in use and has the key.
fn in_use(keys: &[u64], keyed: &[bool], n: usize, slot: usize, key: u64) -> bool
    ensures { result ≡ (ltb slot n && slot_has keys.now keyed.now key slot) }
{
    slot < n && slot_keys::has_key(keys, keyed, slot, key)
}

// The slot that holds the last position of the key.
fn last_slot(keys: &[u64], keyed: &[bool], held: &[u32], n: usize, key: u64) -> usize
    requires { 0 < held_count keys.now keyed.now n key }
    ensures { result ≡ held_slot keys.now keyed.now held.now n key (held_count keys.now keyed.now n key - 1) }
{
    let many = held::held_count(keys, keyed, n, key);
    held::held_slot(keys, keyed, held, n, key, many - 1)
}

// Leaves a slot dead, and its position to the last one of its key, which may be the slot itself.
fn remove_one(keyed: &mut [bool], held: &mut [u32], alive: &mut [u64], slot: usize, last: usize)
    requires { (slot < length keyed.old) × (slot < length held.old) × (last < length held.old) }
    ensures { lent_marks keyed.new held.new alive.new
        ≡ dead_at slot (placed_at last (get_or held.old slot 0) (lent_marks keyed.old held.old alive.old)) }
{
    held[last] = held[slot];
    remove_slot(keyed, held, alive, slot);
}

// Yes, with the record, where the slot is in use and has the key; then it is dead, and the key's last slot takes its position.
pub fn remove_keyed_at(
    index: Index,
    codes: &[u8],
    scales: &[u32],
    keys: &[u64],
    keyed: &mut [bool],
    held: &mut [u32],
    alive: &mut [u64],
    codes2: &[u8],
    scales2: &[u32],
    years: &[u16],
    key: u64,
    slot: usize,
    present: u16,
) -> Result<Option<Index>, Refusal>
    ensures { changed index (verdict result) (lent codes.now scales.now keys.now keyed.new held.new alive.new codes2.now scales2.now years.now)
        ≡ call index (lent codes.now scales.now keys.now keyed.old held.old alive.old codes2.now scales2.now years.now)
        (Step.remove_at key slot present) }
{
    let arrays = Lent {
        codes,
        scales,
        keys,
        keyed: &*keyed,
        held: &*held,
        alive: &*alive,
        codes2,
        scales2,
        years,
    };
    fit::check(index, &arrays)?;
    if in_use(keys, keyed, index.n, slot, key) {
        if retention::must_stay(years, slot, present) {
            return Err(Refusal::MustStay);
        }
        let last = last_slot(keys, keyed, held, index.n, key);
        remove_one(keyed, held, alive, slot, last);
        return Ok(Some(Index {
            live: index.live - 1,
            ..index
        }));
    }
    Ok(None)
}
