// The record as words of 64 bits, for C and Rust: its eight fields are the first eight words of a lent slice.
// Where calls answer for C (crates answer_words and `.._exports`) 13, the number of `Misfit`, stands as C gets it.
#![tactic(auto)]

ghost use Rattle.std.specs.Prelude.{◌≡◌};
ghost use Rattle.words.specs.Words as Words;

use index::Index;

// How many words a record has.
pub const RECORD_WORDS: usize = 8;

// The number of the raw signatures: `abi` in specs/Exports.antt says when it is raised.
pub const ABI: u64 = 3;

// Whether these words are a byte and two flags. The three are tested together: `u8::try_from` would serve the first alone, since bool has no conversion from a number.
fn typed(bits: u64, residual: u64, cascade: u64) -> bool
    ensures { result ≡ Words.typed bits residual cascade }
{
    (bits <= 255) & (residual <= 1) & (cascade <= 1)
}

// The record that the first words say, if they say one. They are dim, working_dim, seed, bits, residual, n, live and cascade.
pub fn record_in(fields: &[u64]) -> Option<Index>
    ensures { result ≡ Words.record_in fields.now }
{
    if fields.len() < RECORD_WORDS {
        return None;
    }
    if !typed(fields[3], fields[4], fields[7]) {
        return None;
    }
    Some(Index {
        dim: fields[0] as usize,
        working_dim: fields[1] as usize,
        seed: fields[2],
        bits: fields[3] as u8,
        residual: fields[4] == 1,
        n: fields[5] as usize,
        live: fields[6] as usize,
        cascade: fields[7] == 1,
    })
}

// The same for a call that answers so many words at most, which need places.
pub fn record_beside(fields: &[u64], answer: &[u64], places: usize) -> Option<Index>
    ensures { result ≡ Words.record_beside places fields.now answer.now }
{
    if answer.len() < places {
        return None;
    }
    record_in(fields)
}
