// The keyed list (document 01, store.rs: "`search_keyed` drops unkeyed hits and repeats"). A place of the list is written if it has a key that no lower place
// has, by the entries of the crate previous.
#![tactic(auto)]

ghost use Rattle.std.specs.Prelude.{◌≡◌, map, ◌≤◌, ◌<◌, min, length, get_or};
ghost use Rattle.std.specs.Float.{nan};
ghost use Rattle.lists.specs.Lists.{over};
ghost use Rattle.previous.specs.Previous.{place_word};
ghost use Rattle.distinct.specs.Distinct.{keyed_shown};
ghost use Rattle.distinct.specs.Places.{first_by, firsts_list, keyed_to, Listed, PutsHit};

// Listed slots and their scores, with the keys that slots have.
#[derive(Clone, Copy)]
struct Hits<'a> {
    keys: &'a [u64],
    keyed: &'a [bool],
    slots: &'a [u32],
    scores: &'a [f32],
}

impl Hits<'_> {
    // Whether a place is the first of its key.
    fn is_first(&self, before: &[u32], place: usize) -> bool
        requires { (place < length self.now.slots.now) × (place < length before.now) }
        ensures { result ≡ first_by self.now.keyed.now self.now.slots.now before.now place }
    {
        before[place] == 0 && slot_keys::is_keyed(self.keyed, self.slots[place] as usize)
    }

    // Writes a place that is the first of its key after those that are written, and returns how many are written then.
    fn write_place(
        &self,
        before: &[u32],
        place: usize,
        names: &mut [u64],
        scores: &mut [f32],
        many: usize,
    ) -> usize
        requires lists { (place < length self.now.slots.now) × (place < length self.now.scores.now) × (place < length before.now) }
        requires room { (place < length names.old) × (place < length scores.old) × (many ≤ place) }
        ensures { PutsHit (first_by self.now.keyed.now self.now.slots.now before.now place)
            (place_word self.now.keys.now self.now.slots.now place) (get_or self.now.scores.now place nan) many
            names.old scores.old result names.new scores.new }
    {
        if self.is_first(before, place) {
            names[many] = slot_keys::key_word(self.keys, self.slots[place] as usize);
            scores[many] = self.scores[place];
            return many + 1;
        }
        many
    }

    // Writes those of the first n places that are the first of their keys, and returns how many they are. Names and scores are two slices, since C lends them so.
    // By index: `write_place` reads three slices at it; a zip of three, each cut to n, would be longer.
    fn write_firsts(&self, before: &[u32], names: &mut [u64], scores: &mut [f32], n: usize) -> usize
        requires lists { (n ≤ length self.now.slots.now) × (n ≤ length self.now.scores.now) × (n ≤ length before.now) }
        requires room { (n ≤ length names.old) × (n ≤ length scores.old) }
        ensures { Listed
            (firsts_list self.now.keys.now self.now.keyed.now self.now.slots.now self.now.scores.now before.now n)
            names.old scores.old result names.new scores.new }
    {
        let mut many: usize = 0;
        for i in 0..n {
            many = self.write_place(before, i, names, scores, many);
        }
        many
    }

    // Writes the keyed list of the first n places.
    fn list_places(&self, names: &mut [u64], scores: &mut [f32], n: usize) -> usize
        requires lists { (n ≤ length self.now.slots.now) × (n ≤ length self.now.scores.now) × (n ≤ 65536) }
        requires room { (n ≤ length names.old) × (n ≤ length scores.old) }
        ensures { Listed (keyed_to self.now.keys.now self.now.keyed.now self.now.slots.now self.now.scores.now n)
            names.old scores.old result names.new scores.new }
    {
        // One size for few and many: with two, the compiler would put this array beside those of the search, past 1.5 MB of stack.
        let mut before = [0u32; 65536];
        previous::link(self.keys, self.keyed, &self.slots[..n], &mut before);
        self.write_firsts(&before, names, scores, n)
    }
}

// Writes the keys of the listed slots, each key once, with the score of its first slot, and returns how many there are.
// Nothing where more than 65,536 slots are listed, or there are fewer places than slots and scores.
pub fn list_keys(
    keys: &[u64],
    keyed: &[bool],
    slots: &[u32],
    hits: &[f32],
    names: &mut [u64],
    scores: &mut [f32],
) -> usize
    ensures many { result ≡ length (keyed_shown keys.now keyed.now slots.now hits.now
        (min (length names.old) (length scores.old))) }
    ensures names_after { names.new ≡ over (map (λ e. e.0) (keyed_shown keys.now keyed.now slots.now hits.now
        (min (length names.old) (length scores.old)))) names.old }
    ensures scores_after { scores.new ≡ over (map (λ e. e.1) (keyed_shown keys.now keyed.now slots.now hits.now
        (min (length names.old) (length scores.old)))) scores.old }
{
    let n = slots.len().min(hits.len());
    let places = names.len().min(scores.len());
    if 65536 < n || places < n {
        return 0;
    }
    Hits {
        keys,
        keyed,
        slots,
        scores: hits,
    }
    .list_places(names, scores, n)
}
