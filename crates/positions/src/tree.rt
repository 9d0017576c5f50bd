// Whether positions are in order, by a tree in which the keyed slots are entered. The tree is an array of slots, and its branches are places in it, since there
// is no heap: a place holds a slot plus one, or 0 where it is free. An Option would take twice the memory, and the largest tree takes half of the stack that a
// call may have. The slot that holds a position of a key is found there in a few steps, and in at most 64 whatever the keys are.
ghost use Rattle.std.specs.Prelude.{◌≡◌, ℕ, suc, ◌+◌, ◌-◌, ◌*◌, ◌^◌, ◌≤◌, ◌<◌, length, get_or};
ghost use Rattle.positions.specs.Decides.{Decides};
ghost use Rattle.positions.specs.Lent.{keys_of};
ghost use Rattle.positions.specs.Ordered.{Preceded, Ordered};
ghost use Rattle.positions.specs.Tree.{root_of, branch, Passes, Tree, Ends, Grown, Entered, AllEntered};

use super::HeldKeys;

// The place where the walk of a key's position begins.
fn root(key: u64, position: u32, roots: usize) -> usize
    requires { 0 < roots }
    ensures { result ≡ root_of roots key position }
{
    let mixed = (key % 0x1_0000_0000 * 0x4F1B_BCDD + key / 0x1_0000_0000 * 0x2F0B_4C47) / 0x8000;
    (mixed as usize + position as usize) & (roots - 1)
}

// The branch of the slot that stands at a place, by the lowest bit.
fn branch_of(entry: u32, roots: usize, bits: u64) -> usize
    requires { (0 < entry) × (roots + 2 * entry < 2 ^ 64) }
    ensures { result ≡ branch roots (entry - 1) bits }
{
    roots + 2 * (entry as usize - 1) + (bits % 2) as usize
}

// The tree is lent beside its number of roots: a struct of both would still have to say at each call which slots have been entered by then, as `Grown` does
// here. So its length is a clause too.
impl HeldKeys<'_> {
    // Whether a walk goes on from a place: a slot stands there that holds something else.
    fn passes(&self, tree: &[u32], place: usize, key: u64, position: u32) -> bool
        requires within { place < length tree.now }
        requires standing { (slot : ℕ) → get_or tree.now place 0 ≡ suc slot → (slot < length self.now.keys.now) × (slot < length self.now.held.now) }
        ensures { Passes self.now.keys.now self.now.held.now tree.now key position place result }
    {
        if tree[place] == 0 {
            return false;
        }
        let slot = tree[place] as usize - 1;
        self.keys[slot] != key || self.held[slot] != position
    }

    // The place where the walk of a key's position ends. It has at most 64 steps: of the pairs that share a root no two have the same key, since their
    // positions are below `roots`, and each step takes one bit of the key.
    // A while: a for over 64 steps would need an answer for an end that is never reached.
    fn find(&self, tree: &[u32], roots: usize, key: u64, position: u32) -> usize
        requires { Tree self.now.keys.now self.now.held.now roots tree.now }
        ensures { Ends self.now.keys.now self.now.held.now roots tree.now key position result }
    {
        let mut place = root(key, position, roots);
        let mut bits = key;
        while self.passes(tree, place, key, position) {
            place = branch_of(tree[place], roots, bits);
            bits /= 2;
        }
        place
    }

    // Enters a slot. False where its position is too high for any key, where the walk meets a slot that holds the same, and where a slot without a key doesn't
    // hold 0.
    fn enter(&self, tree: &mut [u32], roots: usize, slot: usize) -> bool
        requires room { (slot < self.now.n) × (roots + 2 * self.now.n ≤ length tree.old) }
        requires grown { Grown (keys_of self.now) roots slot tree.old }
        ensures { Entered (keys_of self.now) roots self.now.n slot tree.new result }
    {
        let position = self.held[slot];
        if !self.keyed[slot] {
            return position == 0;
        }
        if self.n <= position as usize {
            return false;
        }
        let place = self.find(tree, roots, self.keys[slot], position);
        if tree[place] != 0 {
            return false;
        }
        tree[place] = (slot + 1) as u32;
        true
    }

    // Enters all slots, up to one that fails. By a for: in the iterator's `all` the closure would change the tree, and nothing would say what it is
    // afterwards; a for has an invariant that says it.
    fn enter_all(&self, tree: &mut [u32], roots: usize) -> bool
        requires room { roots + 2 * self.now.n ≤ length tree.old }
        requires grown { Grown (keys_of self.now) roots 0 tree.old }
        ensures { AllEntered (keys_of self.now) roots self.now.n tree.new result }
    {
        for slot in 0..self.n {
            if !self.enter(tree, roots, slot) {
                return false;
            }
        }
        true
    }

    // Whether the position before a slot's own is held.
    fn is_preceded(&self, tree: &[u32], roots: usize, slot: usize) -> bool
        requires slot_lt_n { slot < self.now.n }
        requires grown { Grown (keys_of self.now) roots self.now.n tree.now }
        ensures { Decides result (Preceded (keys_of self.now) self.now.n slot) }
    {
        let position = self.held[slot];
        if !self.keyed[slot] || position == 0 {
            return true;
        }
        let place = self.find(tree, roots, self.keys[slot], position - 1);
        tree[place] != 0
    }

    // Whether that is so of every slot. By a for: `all` was tried, and its proof is longer: it says first what the list of slots is, and what the test says of
    // each.
    fn are_preceded(&self, tree: &[u32], roots: usize) -> bool
        requires grown { Grown (keys_of self.now) roots self.now.n tree.now }
        ensures { Decides result ((j : ℕ) → j < self.now.n → Preceded (keys_of self.now) self.now.n j) }
    {
        for slot in 0..self.n {
            if !self.is_preceded(tree, roots, slot) {
                return false;
            }
        }
        true
    }

    // Whether the positions are in order, by a tree that is still bare. Where all are 0 there is none before them to look for.
    fn ordered_by(&self, tree: &mut [u32], roots: usize) -> bool
        requires room { (0 < roots) × (roots + 2 * self.now.n ≤ length tree.old) }
        requires bare { (place : ℕ) → get_or tree.old place 0 ≡ 0 }
        ensures { Decides result (Ordered (keys_of self.now) self.now.n) }
    {
        // A copy of the struct, so that no write to the tree has its fields read again.
        let s = *self;
        s.enter_all(tree, roots) && (s.all_first() || s.are_preceded(tree, roots))
    }

    // By a tree of `PLACES` places. The call of each size is a function of its own, so that the compiler lays their places over one another.
    fn ordered_in<const PLACES: usize>(&self, roots: usize) -> bool
        requires { (0 < roots) × (roots + 2 * self.now.n ≤ PLACES) × (PLACES ≤ 196608) }
        ensures { Decides result (Ordered (keys_of self.now) self.now.n) }
    {
        let mut tree = [0u32; PLACES];
        self.ordered_by(&mut tree, roots)
    }

    // Whether the positions are in order. The places of the largest tree are 768 kB, and to clear them for a few slots would take longer than the test.
    pub(crate) fn in_order(&self) -> bool
        ensures { Decides result (Ordered (keys_of self.now) self.now.n) }
    {
        if self.n <= 1024 {
            self.ordered_in::<4096>(2048)
        } else if self.n <= 8192 {
            self.ordered_in::<32768>(16384)
        } else {
            self.ordered_in::<196608>(65536)
        }
    }
}
