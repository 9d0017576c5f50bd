// Adding a vector, for C and Rust. `fields` are the words of the record (crate words); the slot goes to the first place of `answer`.
#![tactic(auto)]

ghost use Rattle.std.specs.Prelude.{◌≡◌};
ghost use Rattle.index.specs.Arrays.{lent};
ghost use Rattle.index.specs.Step as Step;
ghost use Rattle.index.specs.Step.{item_of};
ghost use Rattle.words.specs.Exports.{left, left_by};

use index::LentMut;

#[unsafe(no_mangle)]
pub extern "C" fn vecq_raw_add(
    fields: &mut [u64],
    answer: &mut [u64],
    codes: &mut [u8],
    scales: &mut [u32],
    keys: &mut [u64],
    keyed: &mut [bool],
    held: &mut [u32],
    alive: &mut [u64],
    codes2: &mut [u8],
    scales2: &mut [u32],
    years: &mut [u16],
    vector: &[f32],
    year: u16,
) -> u8
    ensures { left result fields.new answer.new
        (lent codes.new scales.new keys.new keyed.new held.new alive.new codes2.new scales2.new years.new)
        ≡ left_by 1 (Step.add (item_of vector.now) year) fields.old answer.old
        (lent codes.old scales.old keys.old keyed.old held.old alive.old codes2.old scales2.old years.old) }
{
    let Some(index) = words::record_beside(fields, answer, 1) else {
        return 13;
    };
    let mut arrays = LentMut {
        codes,
        scales,
        keys,
        keyed,
        held,
        alive,
        codes2,
        scales2,
        years,
    };
    let added = add::add(index, &mut arrays, vector, year);
    answer_words::put_added(added, fields, answer)
}
