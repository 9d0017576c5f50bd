// The key of one slot.
// An entry past the end of its array counts as none: no key, word 0. `keys` and `keyed` go as two slices, not as a struct: C lends them apart, and relabel changes the
// one while it reads the other.
#![tactic(auto)]

ghost use Rattle.std.specs.Prelude.{◌≡◌, false, get_or};
ghost use Rattle.slot_keys.specs.Has.{slot_has};

// Whether a slot has a key.
pub fn is_keyed(keyed: &[bool], slot: usize) -> bool
    ensures { result ≡ get_or keyed.now slot false }
{
    keyed.get(slot).copied().unwrap_or(false)
}

// The word that stands for a slot's key, where it has one.
pub fn key_word(keys: &[u64], slot: usize) -> u64
    ensures { result ≡ get_or keys.now slot 0 }
{
    keys.get(slot).copied().unwrap_or(0)
}

// Whether a slot has this key.
pub fn has_key(keys: &[u64], keyed: &[bool], slot: usize, key: u64) -> bool
    ensures { result ≡ slot_has keys.now keyed.now key slot }
{
    key_word(keys, slot) == key && is_keyed(keyed, slot)
}
