// The layout of a file: where it ends, and how long the file of an index is.
#![tactic(auto)]

ghost use Rattle.std.specs.Prelude.{◌≡◌, ◌*◌, ◌%◌, ◌^◌, ◌≤◌, ◌<◌, length};
ghost use Rattle.lists.specs.Lists.{below};
ghost use Rattle.lists.specs.Keep.{count};
ghost use Rattle.index.specs.Lent.{contents};
ghost use Rattle.index.specs.Verdict.{verdict};
ghost use Rattle.index.specs.Form.{form_of, end_at};
ghost use Rattle.index.specs.Step.{file_length};
ghost use Rattle.index.specs.Call.{call};
ghost use Rattle.index.specs.Answers.{result_of, length_is};
ghost use Rattle.marks.specs.Live.{marks_in};
ghost use Rattle.layout.specs.Counts.{of_word, entry_at, entry_beside, dated_beside, counts_in, counts_of, Summable, together};

use index::{Index, Lent};
use refusal::Refusal;

// ---- counts

// How many slots are live, how many of these have a key, and of how many the year is not 1.
#[derive(Drop)]
pub struct Counts {
    pub live: usize,
    pub keyed: usize,
    pub dated: usize,
}

// Whether a slot has a key entry: it is live and has a key.
pub fn has_entry(keyed: &[bool], alive: &[u64], slot: usize) -> bool
    ensures { result ≡ entry_at keyed.now (marks_in alive.now) slot }
{
    marks::is_live(alive, slot) && slot_keys::is_keyed(keyed, slot)
}

// How many of the slots of a word have an entry, where bits are one a byte. The sum is a byte, of which the compiler adds many at a time. By index: tried with
// zip(), the proof didn't close.
fn entries_beside(keyed: &[bool], bits: &[u8]) -> u8
    requires { (length keyed.now ≤ 64) × (length keyed.now ≤ length bits.now) }
    ensures { result ≡ count (entry_beside keyed.now bits.now) (below (length keyed.now)) }
{
    let mut many: u8 = 0;
    for (j, on) in keyed.iter().enumerate() {
        many += ((bits[j] > 0) & *on) as u8;
    }
    many
}

// How many of the slots of a word are live with a year other than 1, likewise.
fn dates_beside(years: &[u16], bits: &[u8]) -> u8
    requires { (length years.now ≤ 64) × (length years.now ≤ length bits.now) }
    ensures { result ≡ count (dated_beside years.now bits.now) (below (length years.now)) }
{
    let mut many: u8 = 0;
    for (j, year) in years.iter().enumerate() {
        many += ((bits[j] > 0) & (*year != 1)) as u8;
    }
    many
}

// The counts of the slots of one word.
fn count_word(keyed: &[bool], years: &[u16], word: u64) -> Counts
    requires { (length keyed.now ≤ 64) × (length years.now ≤ 64) }
    ensures { result ≡ counts_in keyed.now years.now word }
{
    let bits = marks::spread(word);
    Counts {
        live: word.count_ones() as usize,
        keyed: entries_beside(keyed, &bits) as usize,
        dated: dates_beside(years, &bits) as usize,
    }
}

// What an array has of the slots of word i.
fn of_word<T>(xs: &[T], i: usize) -> &[T]
    requires { i * 64 < 2 ^ 64 }
    ensures { result.now ≡ of_word xs.now i }
{
    let from = xs.len().min(i * 64);
    let to = from + (xs.len() - from).min(64);
    &xs[from..to]
}

// The counts of some slots and of others together.
fn together(some: Counts, others: Counts) -> Counts
    requires { Summable some others }
    ensures { result ≡ together some others }
{
    Counts {
        live: some.live + others.live,
        keyed: some.keyed + others.keyed,
        dated: some.dated + others.dated,
    }
}

// The counts of the slots of the first words. By word: `keyed`, `years` and `alive` are all read at it, and `keyed` and `years` may be shorter.
fn count_words(keyed: &[bool], years: &[u16], alive: &[u64], whole: usize) -> Counts
    requires { (whole ≤ length alive.now) × (whole * 64 < 2 ^ 64) }
    ensures { result ≡ counts_of keyed.now years.now (marks_in alive.now) (whole * 64) }
{
    let mut counts = Counts {
        live: 0,
        keyed: 0,
        dated: 0,
    };
    for i in 0..whole {
        let word = count_word(of_word(keyed, i), of_word(years, i), alive[i]);
        let next = together(counts, word);
        counts = next;
    }
    counts
}

// The first k bits of a word.
fn first_bits(word: u64, k: usize) -> u64
    requires { k < 64 }
    ensures { result ≡ word % 2 ^ k }
{
    word % (1u64 << k)
}

// The counts of the first n slots, word by word, the last one by the bits that are left. Each of `keyed`, `years` and `alive` may be the shortest: past the last
// word of `alive` all slots are dead.
pub fn count_slots(keyed: &[bool], years: &[u16], alive: &[u64], n: usize) -> Counts
    ensures { result ≡ counts_of keyed.now years.now (marks_in alive.now) n }
{
    let slots = n.min(alive.len().saturating_mul(64));
    let whole = slots / 64;
    let first = count_words(keyed, years, alive, whole);
    let word = first_bits(marks::word_at(alive, whole), slots % 64);
    let last = count_word(of_word(keyed, whole), of_word(years, whole), word);
    together(first, last)
}

// ---- the length of an index's file

// The length of a file of this version with these counts, its blocks being so many bytes.
#[tactic(auto, unfolding(index::specs::Form::end_at))]
fn length_of(version: u16, block: usize, counts: Counts) -> usize
    requires { (block ≤ 4096) × (counts.live ≤ 65536) × (counts.keyed ≤ 65536) }
    ensures { result ≡ end_at (form_of version) block counts.live counts.keyed }
{
    let form = form::form_of(version);
    let stage = form::stage_size(block as u16, counts.live as u32);
    let second = if form.second { stage } else { 0 };
    let table = form::table_size(form, counts.keyed as u32);
    let years = form::years_size(form, counts.live as u32);
    form::stages_at(form) + stage + second + table + years
}

// How many bytes the file of the index has. Refusal: 13.
pub fn file_length(index: Index, arrays: &Lent<'_>) -> Result<usize, Refusal>
    ensures { let a = contents arrays.now in
        result_of index a (length_is (verdict result)) ≡ call index a file_length }
{
    fit::check(index, arrays)?;
    let counts = count_slots(arrays.keyed, arrays.years, arrays.alive, index.n);
    let version = form::version_with(index, counts.dated > 0);
    Ok(length_of(version, room::block_size(index), counts))
}
