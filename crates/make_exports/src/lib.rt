// Making an index, for C and Rust. `fields` are the words of the record (crate words): an accepted call writes them and clears the live marks,
// and writes no other lent slice. With it the number of the raw signatures.
// Each call has a name of its own, for C. The test of the record's places, before which nothing may be written, stands in each of the three: a function for them
// would take the making as a closure, and the closure's type would have to say what becomes of the arrays that it captures.
#![tactic(auto)]

ghost use Rattle.std.specs.Prelude.{◌≡◌, true, false, []};
ghost use Rattle.index.specs.Arrays.{lent};
ghost use Rattle.index.specs.Make.{new_header, make};
ghost use Rattle.words.specs.Exports.{left, begins, abi};

use index::LentMut;

// What a caller compares with the number that its own declarations are for.
#[unsafe(no_mangle)]
pub extern "C" fn vecq_raw_abi() -> u64
    ensures { result ≡ abi }
{
    words::ABI
}

#[unsafe(no_mangle)]
pub extern "C" fn vecq_raw_new(
    fields: &mut [u64],
    codes: &mut [u8],
    scales: &mut [u32],
    keys: &mut [u64],
    keyed: &mut [bool],
    held: &mut [u32],
    alive: &mut [u64],
    codes2: &mut [u8],
    scales2: &mut [u32],
    years: &mut [u16],
    dim: usize,
    seed: u64,
) -> u8
    ensures { let a = lent codes.old scales.old keys.old keyed.old held.old alive.old codes2.old scales2.old years.old in
        left result fields.new []
        (lent codes.new scales.new keys.new keyed.new held.new alive.new codes2.new scales2.new years.new)
        ≡ begins (make (new_header dim dim seed false) a) fields.old a }
{
    let mut arrays = LentMut {
        codes,
        scales,
        keys,
        keyed,
        held,
        alive,
        codes2,
        scales2,
        years,
    };
    if fields.len() < words::RECORD_WORDS {
        let check = make::check(dim, dim, seed, false, &arrays.view());
        return answer_words::without_place(check);
    }
    let made_new = make::new(dim, seed, &mut arrays);
    answer_words::put_made(made_new, fields)
}

#[unsafe(no_mangle)]
pub extern "C" fn vecq_raw_with_working_dim(
    fields: &mut [u64],
    codes: &mut [u8],
    scales: &mut [u32],
    keys: &mut [u64],
    keyed: &mut [bool],
    held: &mut [u32],
    alive: &mut [u64],
    codes2: &mut [u8],
    scales2: &mut [u32],
    years: &mut [u16],
    dim: usize,
    working_dim: usize,
    seed: u64,
) -> u8
    ensures { let a = lent codes.old scales.old keys.old keyed.old held.old alive.old codes2.old scales2.old years.old in
        left result fields.new []
        (lent codes.new scales.new keys.new keyed.new held.new alive.new codes2.new scales2.new years.new)
        ≡ begins (make (new_header dim working_dim seed false) a) fields.old a }
{
    let mut arrays = LentMut {
        codes,
        scales,
        keys,
        keyed,
        held,
        alive,
        codes2,
        scales2,
        years,
    };
    if fields.len() < words::RECORD_WORDS {
        let check = make::check(dim, working_dim, seed, false, &arrays.view());
        return answer_words::without_place(check);
    }
    let made_working = make::with_working_dim(dim, working_dim, seed, &mut arrays);
    answer_words::put_made(made_working, fields)
}

#[unsafe(no_mangle)]
pub extern "C" fn vecq_raw_with_residual(
    fields: &mut [u64],
    codes: &mut [u8],
    scales: &mut [u32],
    keys: &mut [u64],
    keyed: &mut [bool],
    held: &mut [u32],
    alive: &mut [u64],
    codes2: &mut [u8],
    scales2: &mut [u32],
    years: &mut [u16],
    dim: usize,
    seed: u64,
) -> u8
    ensures { let a = lent codes.old scales.old keys.old keyed.old held.old alive.old codes2.old scales2.old years.old in
        left result fields.new []
        (lent codes.new scales.new keys.new keyed.new held.new alive.new codes2.new scales2.new years.new)
        ≡ begins (make (new_header dim dim seed true) a) fields.old a }
{
    let mut arrays = LentMut {
        codes,
        scales,
        keys,
        keyed,
        held,
        alive,
        codes2,
        scales2,
        years,
    };
    if fields.len() < words::RECORD_WORDS {
        let check = make::check(dim, dim, seed, true, &arrays.view());
        return answer_words::without_place(check);
    }
    let made_residual = make::with_residual(dim, seed, &mut arrays);
    answer_words::put_made(made_residual, fields)
}
