// Setting the width of a made index and enabling its cascade, for C and Rust. `fields` are the words of the record (crate words): the calls write them, and no
// other lent slice.
#![tactic(auto)]

ghost use Rattle.std.specs.Prelude.{◌≡◌, []};
ghost use Rattle.index.specs.Arrays.{lent};
ghost use Rattle.index.specs.Step.{set_bits, enable};
ghost use Rattle.words.specs.Exports.{left, left_by};

use index::Lent;

#[unsafe(no_mangle)]
pub extern "C" fn vecq_raw_set_bits(
    fields: &mut [u64],
    codes: &[u8],
    scales: &[u32],
    keys: &[u64],
    keyed: &[bool],
    held: &[u32],
    alive: &[u64],
    codes2: &[u8],
    scales2: &[u32],
    years: &[u16],
    bits: u8,
) -> u8
    ensures { let a = lent codes.now scales.now keys.now keyed.now held.now alive.now codes2.now scales2.now years.now in
        left result fields.new [] a ≡ left_by 0 (set_bits bits) fields.old [] a }
{
    let Some(index) = words::record_in(fields) else {
        return 13;
    };
    let arrays = Lent {
        codes,
        scales,
        keys,
        keyed,
        held,
        alive,
        codes2,
        scales2,
        years,
    };
    let width_set = settings::set_bits(index, &arrays, bits);
    answer_words::put_made(width_set, fields)
}

#[unsafe(no_mangle)]
pub extern "C" fn vecq_raw_enable_cascade(
    fields: &mut [u64],
    codes: &[u8],
    scales: &[u32],
    keys: &[u64],
    keyed: &[bool],
    held: &[u32],
    alive: &[u64],
    codes2: &[u8],
    scales2: &[u32],
    years: &[u16],
) -> u8
    ensures { let a = lent codes.now scales.now keys.now keyed.now held.now alive.now codes2.now scales2.now years.now in
        left result fields.new [] a ≡ left_by 0 enable fields.old [] a }
{
    let Some(index) = words::record_in(fields) else {
        return 13;
    };
    let arrays = Lent {
        codes,
        scales,
        keys,
        keyed,
        held,
        alive,
        codes2,
        scales2,
        years,
    };
    let cascade_enabled = settings::enable_cascade(index, &arrays);
    answer_words::put_made(cascade_enabled, fields)
}
