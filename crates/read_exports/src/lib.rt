// Reading, for C and Rust. The words of the record (crate words) go to the first places of `fields`.
#![tactic(auto)]

ghost use Rattle.std.specs.Prelude.{◌≡◌, []};
ghost use Rattle.index.specs.Arrays.{lent};
ghost use Rattle.index.specs.Read.{read_into};
ghost use Rattle.words.specs.Exports.{left, begins};

use index::LentMut;

#[unsafe(no_mangle)]
pub extern "C" fn vecq_raw_from_bytes(
    fields: &mut [u64],
    codes: &mut [u8],
    scales: &mut [u32],
    keys: &mut [u64],
    keyed: &mut [bool],
    held: &mut [u32],
    alive: &mut [u64],
    codes2: &mut [u8],
    scales2: &mut [u32],
    years: &mut [u16],
    file: &[u8],
) -> u8
    ensures { let a = lent codes.old scales.old keys.old keyed.old held.old alive.old codes2.old scales2.old years.old in
        left result fields.new []
        (lent codes.new scales.new keys.new keyed.new held.new alive.new codes2.new scales2.new years.new)
        ≡ begins (read_into a file.now) fields.old a }
{
    let mut arrays = LentMut {
        codes,
        scales,
        keys,
        keyed,
        held,
        alive,
        codes2,
        scales2,
        years,
    };
    // Nothing may have been written once the record turns out to have no place.
    if fields.len() < words::RECORD_WORDS {
        return answer_words::without_place(read::check(&arrays.view(), file));
    }
    let read = read::from_bytes(&mut arrays, file);
    answer_words::put_made(read, fields)
}
