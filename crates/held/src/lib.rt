// The slots that hold a key, found by scanning (document 01, "keys found by scanning").
// An entry past the end of its array counts as none: no key, word 0, position 0.
#![tactic(auto)]

ghost use Rattle.std.specs.Prelude.{◌≡◌, find};
ghost use Rattle.std.specs.List.{range_with_len};
ghost use Rattle.held.specs.Held.{slot_holds, held_count, held_slot};

// Whether a slot holds this position of the key.
fn holds_position(
    keys: &[u64],
    keyed: &[bool],
    held: &[u32],
    slot: usize,
    key: u64,
    position: usize,
) -> bool
    ensures { result ≡ slot_holds keys.now keyed.now held.now key position slot }
{
    slot_keys::has_key(keys, keyed, slot, key)
        && held.get(slot).copied().unwrap_or(0) as usize == position
}

// How many slots the key has, each index being tested. A loop: as filter().count() it was tried, and the check did not find that the count is that of the slots.
fn count_slots(keys: &[u64], keyed: &[bool], n: usize, key: u64) -> usize
    ensures { result ≡ held_count keys.now keyed.now n key }
{
    let mut many = 0;
    for slot in 0..n {
        if slot_keys::has_key(keys, keyed, slot, key) {
            many += 1;
        }
    }
    many
}

// How many slots the key has; past the end of `keyed` no slot has one. Where the arrays have as many slots as are counted, parts of that length spare the
// test of each index: nearly three times as fast.
pub fn held_count(keys: &[u64], keyed: &[bool], n: usize, key: u64) -> usize
    ensures { result ≡ held_count keys.now keyed.now n key }
{
    if n <= keys.len() && n <= keyed.len() {
        count_slots(&keys[..n], &keyed[..n], n, key)
    } else {
        count_slots(keys, keyed, n.min(keyed.len()), key)
    }
}

// The first of `end` slots that holds the position of the key, each index being tested.
fn find_slot(
    keys: &[u64],
    keyed: &[bool],
    held: &[u32],
    end: usize,
    key: u64,
    position: usize,
) -> Option<usize>
    ensures { result ≡ find (slot_holds keys.now keyed.now held.now key position) (range_with_len 0 end) }
{
    (0..end).find(|slot| holds_position(keys, keyed, held, *slot, key, position))
}

// The slot that holds the position of the key, the first one where there are several; n where there is none. By parts, as in `held_count`.
// A number and no `Option`, as in the specification, whose laws of the slot (proofs/Value.antt) compare it with n; `add_keyed` writes just slot n where there is none.
pub fn held_slot(
    keys: &[u64],
    keyed: &[bool],
    held: &[u32],
    n: usize,
    key: u64,
    position: usize,
) -> usize
    ensures { result ≡ held_slot keys.now keyed.now held.now n key position }
{
    if n <= keys.len() && n <= keyed.len() && n <= held.len() {
        find_slot(&keys[..n], &keyed[..n], &held[..n], n, key, position).unwrap_or(n)
    } else {
        find_slot(keys, keyed, held, n.min(keyed.len()), key, position).unwrap_or(n)
    }
}
