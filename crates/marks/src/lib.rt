// Live marks, 64 to a word: slot s at bit s modulo 64 of word s divided by 64, 1 for a live slot, 0 for a dead one. They are read and written here, and
// whole words in `fit`, `layout` and `nearest`.
#![tactic(auto)]

ghost use Rattle.std.specs.Prelude.{◌≡◌, ◌*◌, ◌<◌, min, length, set};
ghost use Rattle.lists.specs.Lists.{tab, over};
ghost use Rattle.lists.specs.Keep.{bit};
ghost use Rattle.marks.specs.Live.{marks_in, no_marks, live_at};
ghost use Rattle.marks.specs.Word.{BitSet, Lives, Spread, live_in, first_word};

// How many slots the words have marks for, as far as an index has slots: 65,536.
pub fn places(alive: &[u64]) -> usize
    ensures { result ≡ min 65536 (length (marks_in alive.now)) }
{
    alive.len().min(1024) * 64
}

// Word i, the marks of the 64 slots from i * 64 on; past the last word they are dead. A loop that must be fast reads words: `is_live` tests at each slot that
// its word is there.
pub fn word_at(alive: &[u64], i: usize) -> u64
    ensures { Lives (marks_in alive.now) (i * 64) result }
{
    alive.get(i).copied().unwrap_or(0)
}

// Whether the j-th slot of a word is live; past the 64th none is.
pub fn is_set(word: u64, j: usize) -> bool
    ensures { result ≡ live_in word j }
{
    j < 64 && (word >> j) % 2 == 1
}

// The bits of a word, one a byte: other than 0 where the bit is set. A loop over these and bytes of slots takes many slots at a time. They are made of the word's
// bytes: tried by a shift of the word for each bit, the test of keys took three times as long.
pub fn spread(word: u64) -> [u8; 64]
    ensures { Spread word result }
{
    let mut marks = [0u8; 64];
    for (j, mark) in marks.iter_mut().enumerate() {
        *mark = ((word >> (j / 8 * 8)) % 256) as u8 & (1 << (j % 8));
    }
    marks
}

// Whether a slot is live; past the last word it is dead.
pub fn is_live(alive: &[u64], slot: usize) -> bool
    ensures { result ≡ live_at (marks_in alive.now) slot }
{
    is_set(word_at(alive, slot / 64), slot % 64)
}

// A word with bit j set or cleared.
fn with_bit(word: u64, j: usize, live: bool) -> u64
    requires { j < 64 }
    ensures { BitSet word j (bit live) result }
{
    let one = 1u64 << j;
    match (is_set(word, j), live) {
        (false, true) => word + one,
        (true, false) => word - one,
        _ => word,
    }
}

// Marks a slot as live or as dead; nothing past the end. By a test and an index: of what `get_mut` lends nothing is known after the write.
pub fn set_live_mark(alive: &mut [u64], slot: usize, live: bool)
    ensures { marks_in alive.new ≡ set (marks_in alive.old) slot (bit live) }
{
    let i = slot / 64;
    if i < alive.len() {
        alive[i] = with_bit(alive[i], slot % 64, live);
    }
}

// Word i of marks of which the first n are set.
fn word_of_first(n: usize, i: usize) -> u64
    ensures { result ≡ first_word n i }
{
    let whole = n / 64;
    if i < whole {
        return u64::MAX;
    }
    if whole < i {
        return 0;
    }
    (1u64 << (n % 64)) - 1
}

// Marks the first n slots as live, or those that there are, and all others as dead.
pub fn mark_live(alive: &mut [u64], n: usize)
    ensures { marks_in alive.new ≡ over (tab (λ _. 1) (min n (length (marks_in alive.old)))) (no_marks (marks_in alive.old)) }
{
    for (i, word) in alive.iter_mut().enumerate() {
        *word = word_of_first(n, i);
    }
}
