// The record of an index, the arrays that are lent with it, what the adding calls answer, what a version of a file has,
// and the specification that all of them cite (specs/).
#![tactic(auto)]

ghost use Rattle.std.specs.Prelude.{◌≡◌};
ghost use Rattle.index.specs.Lent.{contents, contents_mut};

// What the index is beside its lent arrays. It goes in by value and comes back in the answer. The first five fields are those of encode's `Header`, here once
// more: to callers and to C the record is one.
#[derive(Clone, Copy)]
pub struct Index {
    pub dim: usize,
    pub working_dim: usize,
    pub seed: u64,
    pub bits: u8,
    pub residual: bool,
    pub n: usize,
    pub live: usize,
    pub cascade: bool,
}

// The nine arrays that a caller lends to be read (specs/Arrays.antt). They stay parallel arrays: C lends them so, and the index has no memory of its own.
#[derive(Clone, Copy)]
pub struct Lent<'a> {
    pub codes: &'a [u8],
    pub scales: &'a [u32],
    pub keys: &'a [u64],
    pub keyed: &'a [bool],
    pub held: &'a [u32],
    pub alive: &'a [u64],
    pub codes2: &'a [u8],
    pub scales2: &'a [u32],
    pub years: &'a [u16],
}

// The same, lent to be changed.
#[derive(Drop)]
pub struct LentMut<'a> {
    pub codes: &'a mut [u8],
    pub scales: &'a mut [u32],
    pub keys: &'a mut [u64],
    pub keyed: &'a mut [bool],
    pub held: &'a mut [u32],
    pub alive: &'a mut [u64],
    pub codes2: &'a mut [u8],
    pub scales2: &'a mut [u32],
    pub years: &'a mut [u16],
}

impl LentMut<'_> {
    // The same arrays, lent to be read.
    pub fn view(&self) -> Lent<'_>
        ensures { contents result ≡ contents_mut self.now }
    {
        Lent {
            codes: &*self.codes,
            scales: &*self.scales,
            keys: &*self.keys,
            keyed: &*self.keyed,
            held: &*self.held,
            alive: &*self.alive,
            codes2: &*self.codes2,
            scales2: &*self.scales2,
            years: &*self.years,
        }
    }
}

// What the adding calls answer: the slot, and the record after it.
#[derive(Clone, Copy)]
pub struct Added {
    pub slot: usize,
    pub index: Index,
}

// What a version of the byte form has: whether it is read, and whether there is a width byte, a second stage, a key table,
// a working_dim field that counts, years. `known` is a flag, since the other fields have their values at an unknown version too, and `head_in` and `stages_in`
// (header), whose promises hold of any file, read them.
#[derive(Clone, Copy)]
pub struct Form {
    pub known: bool,
    pub width: bool,
    pub second: bool,
    pub keys: bool,
    pub working: bool,
    pub years: bool,
}
