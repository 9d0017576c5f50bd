// Whether slots are to be kept by their years (document 02, Req 06): 21.
// An entry past the end of its array counts as none: no key, year 0.
#![tactic(auto)]

ghost use Rattle.std.specs.Prelude.{◌≡◌, get_or};
ghost use Rattle.index.specs.Step.{must_stay};
ghost use Rattle.retention.specs.Stays.{key_must_stay};

// Whether a slot's year says that it must stay.
pub fn must_stay(years: &[u16], slot: usize, present: u16) -> bool
    ensures { result ≡ must_stay present (get_or years.now slot 0) }
{
    let year = years.get(slot).copied().unwrap_or(0);
    year == 0 || 1 < year && present < year
}

// Whether one of the first n slots has the key and must stay.
pub fn key_must_stay(
    keys: &[u64],
    keyed: &[bool],
    years: &[u16],
    n: usize,
    key: u64,
    present: u16,
) -> bool
    ensures { result ≡ key_must_stay keys.now keyed.now years.now n key present }
{
    (0..n).any(|slot| slot_keys::has_key(keys, keyed, slot, key) && must_stay(years, slot, present))
}
