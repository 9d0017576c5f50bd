// Relabelling and the two removals, for C and Rust. `fields` are the words of the record (crate words); 1 for yes or 0 for no goes to the first place
// of `answer`. Where it is no, `fields` stays as it was.
#![tactic(auto)]

ghost use Rattle.std.specs.Prelude.{◌≡◌};
ghost use Rattle.index.specs.Arrays.{lent};
ghost use Rattle.index.specs.Step as Step;
ghost use Rattle.words.specs.Exports.{left, left_by};

#[unsafe(no_mangle)]
pub extern "C" fn vecq_raw_relabel(
    fields: &mut [u64],
    answer: &mut [u64],
    codes: &[u8],
    scales: &[u32],
    keys: &mut [u64],
    keyed: &[bool],
    held: &[u32],
    alive: &[u64],
    codes2: &[u8],
    scales2: &[u32],
    years: &[u16],
    old: u64,
    new: u64,
) -> u8
    ensures { left result fields.new answer.new
        (lent codes.now scales.now keys.new keyed.now held.now alive.now codes2.now scales2.now years.now)
        ≡ left_by 1 (Step.relabel old new) fields.old answer.old
        (lent codes.now scales.now keys.old keyed.now held.now alive.now codes2.now scales2.now years.now) }
{
    let Some(index) = words::record_beside(fields, answer, 1) else {
        return 13;
    };
    let relabelled = relabel::relabel(
        index, codes, scales, keys, keyed, held, alive, codes2, scales2, years, old, new,
    );
    answer_words::put_changed(relabelled, fields, answer)
}

#[unsafe(no_mangle)]
pub extern "C" fn vecq_raw_remove_keyed(
    fields: &mut [u64],
    answer: &mut [u64],
    codes: &[u8],
    scales: &[u32],
    keys: &[u64],
    keyed: &mut [bool],
    held: &mut [u32],
    alive: &mut [u64],
    codes2: &[u8],
    scales2: &[u32],
    years: &[u16],
    key: u64,
    present: u16,
) -> u8
    ensures { left result fields.new answer.new
        (lent codes.now scales.now keys.now keyed.new held.new alive.new codes2.now scales2.now years.now)
        ≡ left_by 1 (Step.remove key present) fields.old answer.old
        (lent codes.now scales.now keys.now keyed.old held.old alive.old codes2.now scales2.now years.now) }
{
    let Some(index) = words::record_beside(fields, answer, 1) else {
        return 13;
    };
    let removed = removal::remove_keyed(
        index, codes, scales, keys, keyed, held, alive, codes2, scales2, years, key, present,
    );
    answer_words::put_changed(removed, fields, answer)
}

#[unsafe(no_mangle)]
pub extern "C" fn vecq_raw_remove_keyed_at(
    fields: &mut [u64],
    answer: &mut [u64],
    codes: &[u8],
    scales: &[u32],
    keys: &[u64],
    keyed: &mut [bool],
    held: &mut [u32],
    alive: &mut [u64],
    codes2: &[u8],
    scales2: &[u32],
    years: &[u16],
    key: u64,
    slot: usize,
    present: u16,
) -> u8
    ensures { left result fields.new answer.new
        (lent codes.now scales.now keys.now keyed.new held.new alive.new codes2.now scales2.now years.now)
        ≡ left_by 1 (Step.remove_at key slot present) fields.old answer.old
        (lent codes.now scales.now keys.now keyed.old held.old alive.old codes2.now scales2.now years.now) }
{
    let Some(index) = words::record_beside(fields, answer, 1) else {
        return 13;
    };
    let removed_at = removal::remove_keyed_at(
        index, codes, scales, keys, keyed, held, alive, codes2, scales2, years, key, slot, present,
    );
    answer_words::put_changed(removed_at, fields, answer)
}
