// Compaction, for C and Rust. `fields` are the words of the record (crate words).
#![tactic(auto)]

ghost use Rattle.std.specs.Prelude.{◌≡◌, []};
ghost use Rattle.index.specs.Arrays.{lent};
ghost use Rattle.index.specs.Step.{compact};
ghost use Rattle.words.specs.Exports.{left, left_by};

use index::LentMut;

#[unsafe(no_mangle)]
pub extern "C" fn vecq_raw_compact(
    fields: &mut [u64],
    codes: &mut [u8],
    scales: &mut [u32],
    keys: &mut [u64],
    keyed: &mut [bool],
    held: &mut [u32],
    alive: &mut [u64],
    codes2: &mut [u8],
    scales2: &mut [u32],
    years: &mut [u16],
) -> u8
    ensures { left result fields.new []
        (lent codes.new scales.new keys.new keyed.new held.new alive.new codes2.new scales2.new years.new)
        ≡ left_by 0 compact fields.old []
        (lent codes.old scales.old keys.old keyed.old held.old alive.old codes2.old scales2.old years.old) }
{
    let Some(index) = words::record_in(fields) else {
        return 13;
    };
    let mut arrays = LentMut {
        codes,
        scales,
        keys,
        keyed,
        held,
        alive,
        codes2,
        scales2,
        years,
    };
    let compacted = compact::compact(index, &mut arrays);
    answer_words::put_made(compacted, fields)
}
