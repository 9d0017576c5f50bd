// Refusal 13's test of the positions: each key's t slots hold the positions 0 to t - 1 once each. Where keys and positions rise with the slots, or there are none, one pass
// shows it; else a tree does.
#![tactic(auto)]

mod tree;

ghost use Rattle.std.specs.Prelude.{◌≡◌, true, Some, MatchOption, IfSome, ◌<◌};
ghost use Rattle.positions.specs.Decides.{Decides};
ghost use Rattle.positions.specs.Ordered.{lent_keys, Room, Ordered, AllFirst};
ghost use Rattle.positions.specs.Positions.{positions_fit, Follows, Rising, NoneKeyed, Climbing};

// The lent arrays of keys, of which the first n slots are tested.
#[derive(Clone, Copy)]
struct HeldKeys<'a> {
    keys: &'a [u64],
    keyed: &'a [bool],
    held: &'a [u32],
    n: usize,
    ghost room: { Room (lent_keys keys keyed held) n },
}

impl<'a> HeldKeys<'a> {
    ghost use Rattle.positions.specs.Lent.{keys_of};

    // The arrays, where they have the first n slots, at most 65,536. By cases: `then_some` would make the struct before its `room` is known.
    fn new(keys: &'a [u64], keyed: &'a [bool], held: &'a [u32], n: usize) -> Option<Self>
        ensures { MatchOption result (Room (lent_keys keys.entry keyed.entry held.entry) n → ⊥)
            (λ s. (keys_of s ≡ lent_keys keys.entry keyed.entry held.entry) × (s.n ≡ n)) }
    {
        if n <= 65536 && n <= keys.len() && n <= keyed.len() && n <= held.len() {
            Some(HeldKeys {
                keys,
                keyed,
                held,
                n,
            })
        } else {
            None
        }
    }

    // ---- no position but 0

    // Whether each slot holds position 0. None of them ends the loop, so that the compiler takes many at a time.
    fn all_first(&self) -> bool
        ensures { Decides result (AllFirst self.now.held.now self.now.n) }
    {
        let mut all = true;
        for position in &self.held[..self.n] {
            all &= *position == 0;
        }
        all
    }

    // Whether no slot has a key. None of them ends the loop, so that the compiler takes many at a time.
    fn none_keyed(&self) -> bool
        ensures { Decides result (NoneKeyed self.now.keyed.now self.now.n) }
    {
        let mut none = true;
        for keyed in &self.keyed[..self.n] {
            none &= !*keyed;
        }
        none
    }

    // Whether the words of the slots rise, whether they stand for keys or not.
    fn words_rise(&self) -> bool
        ensures { result ≡ true → Climbing self.now.keys.now self.now.n }
    {
        self.keys[..self.n].is_sorted_by(|a, b| *a < *b)
    }

    // Whether every position is 0, and there are no keys or the words rise. Then the positions are in order.
    fn plain(&self) -> bool
        ensures { result ≡ true → Ordered (keys_of self.now) self.now.n }
    {
        self.all_first() && (self.none_keyed() || self.words_rise())
    }

    // ---- keys and positions that rise with the slots

    // Whether a slot has a greater key than an earlier one and position 0, or the same key and the next position.
    fn follows_slot(&self, before: usize, slot: usize) -> bool
        requires { (before < slot) × (slot < self.now.n) }
        ensures { result ≡ true → Follows self.now.keys.now self.now.held.now (Some before) slot }
    {
        if self.keys[before] < self.keys[slot] {
            self.held[slot] == 0
        } else {
            self.keys[before] == self.keys[slot]
                && self.held[slot] as usize == self.held[before] as usize + 1
        }
    }

    // Whether a slot follows the last keyed one before it, or has no key and holds 0.
    fn follows(&self, last: Option<usize>, slot: usize) -> bool
        requires { (slot < self.now.n) × IfSome last (λ before. before < slot) }
        ensures { result ≡ true → Rising (keys_of self.now) last slot }
    {
        if !self.keyed[slot] {
            return self.held[slot] == 0;
        }
        match last {
            Some(before) => self.follows_slot(before, slot),
            None => self.held[slot] == 0,
        }
    }

    // Whether each keyed slot follows the one before it. Then the positions are in order. By slot: what a turn hands on is a slot.
    fn rise(&self) -> bool
        ensures { result ≡ true → Ordered (keys_of self.now) self.now.n }
    {
        let mut last = None;
        for slot in 0..self.n {
            if !self.follows(last, slot) {
                return false;
            }
            if self.keyed[slot] {
                last = Some(slot);
            }
        }
        true
    }
}

// Whether the arrays have the first n slots, at most 65,536, and there each key's t slots hold the positions 0 to t - 1 once each and the others hold 0.
// By a match: the closure of `is_some_and` would need a clause of its own.
pub fn positions_fit(keys: &[u64], keyed: &[bool], held: &[u32], n: usize) -> bool
    ensures { result ≡ positions_fit (lent_keys keys.entry keyed.entry held.entry) n }
{
    match HeldKeys::new(keys, keyed, held, n) {
        Some(s) => s.plain() || s.rise() || s.in_order(),
        None => false,
    }
}
