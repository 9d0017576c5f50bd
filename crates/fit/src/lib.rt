// Refusal 13's test of the index: whether a record and its lent arrays fit.
#![tactic(auto)]

ghost use Rattle.std.specs.Prelude.{◌≡◌, ◌*◌, ◌≤◌, length};
ghost use Rattle.index.specs.Lent.{contents};
ghost use Rattle.index.specs.Fit.{fit};
ghost use Rattle.positions.specs.Decides.{Decides};
ghost use Rattle.marks.specs.Live.{marks_in};
ghost use Rattle.fit.specs.Tested.{Tested};
ghost use Rattle.fit.specs.Fits.{Fields, KeyedLive, NoneFrom, live_marks, Marks};
ghost use Rattle.fit.specs.Word.{AllZero, EachSet, WordLive};

use index::{Index, Lent};
use refusal::Refusal;

// ---- the record

// Whether the fields are in range, and a residual record has width 4.
fn fields_fit(index: Index) -> bool
    ensures { Decides result (Fields index) }
{
    (1..=4096).contains(&index.dim)
        && (1..=index.dim).contains(&index.working_dim)
        && (4..=6).contains(&index.bits)
        && (!index.residual || index.bits == 4)
}

// ---- marks, 64 to a word: slot s at bit s modulo 64 of word s divided by 64

// Whether all words are 0. None of them ends the loop, so that the compiler takes many at a time.
fn all_zero(words: &[u64]) -> bool
    ensures { Decides result (AllZero words.now) }
{
    let mut all = true;
    for word in words {
        all = all & (*word == 0);
    }
    all
}

// Whether no bit at or above that of slot n is set in any word.
fn none_from(n: usize, alive: &[u64]) -> bool
    ensures { Decides result (NoneFrom n (marks_in alive.now)) }
{
    let word = n / 64;
    if alive.len() <= word {
        return true;
    }
    if alive[word] >> (n % 64) == 0 {
        return all_zero(&alive[word + 1..]);
    }
    false
}

// Whether each slot that has a key has its bit set, where bits are one a byte. No slot ends the loop, so that the compiler takes many at a time.
fn each_set(keyed: &[bool], bits: &[u8]) -> bool
    requires { length keyed.now ≤ length bits.now }
    ensures { Decides result (EachSet keyed.now bits.now (length keyed.now)) }
{
    let mut all = true;
    for (on, bit) in keyed.iter().zip(bits) {
        all = all & (!*on | (*bit > 0));
    }
    all
}

// Whether each of the at most 64 slots of a word that has a key is live. Most words have all bits set, and then there is no need to look for keys.
fn word_fits(keyed: &[bool], word: u64) -> bool
    requires { length keyed.now ≤ 64 }
    ensures { Decides result (WordLive keyed.now word) }
{
    word == u64::MAX || each_set(keyed, &marks::spread(word))
}

// Whether each slot that has a key is live, word by word.
fn keyed_fit(keyed: &[bool], alive: &[u64]) -> bool
    requires { length keyed.now ≤ length (marks_in alive.now) }
    ensures { Decides result (KeyedLive keyed.now (marks_in alive.now) (length keyed.now)) }
{
    let mut all = true;
    for (part, word) in keyed.chunks(64).zip(alive) {
        all = all & word_fits(part, *word);
    }
    all
}

// How many live marks words have: the count of their ones.
fn live_total(words: &[u64]) -> usize
    requires { length words.now ≤ 1024 }
    ensures { result ≡ live_marks (marks_in words.now) (length words.now * 64) }
{
    let mut many: u32 = 0;
    for word in words {
        many += word.count_ones();
    }
    many as usize
}

// Whether no bit is set past the slots in use, each slot with a key is live, and the live count is right. The first lets the count take whole words.
fn marks_fit(keyed: &[bool], alive: &[u64], n: usize, live: usize) -> bool
    requires { (n ≤ 65536) × (n ≤ length keyed.now) × (n ≤ length (marks_in alive.now)) }
    ensures { Decides result (Marks keyed.now (marks_in alive.now) n live) }
{
    none_from(n, alive)
        && keyed_fit(&keyed[..n], alive)
        && live_total(&alive[..n.div_ceil(64)]) == live
}

// ---- the test

// Refusal 13, for the index's part: whether record and arrays fit.
pub fn fits(index: Index, arrays: &Lent<'_>) -> bool
    ensures { result ≡ fit index (contents arrays.now) }
{
    if fields_fit(index) {
        let n = index.n;
        let room = room::capacity(index, arrays);
        if room < n {
            return false;
        }
        if marks_fit(arrays.keyed, arrays.alive, n, index.live) {
            return positions::positions_fit(arrays.keys, arrays.keyed, arrays.held, n);
        }
        return false;
    }
    false
}

// The same as a refusal, which comes first in every call on a record.
pub fn check(index: Index, arrays: &Lent<'_>) -> Result<(), Refusal>
    ensures { Tested (fit index (contents arrays.now)) result }
{
    if fits(index, arrays) {
        return Ok(());
    }
    Err(Refusal::Misfit)
}
