// Writing, and how long the file will be, for C and Rust. `fields` are the words of the record (crate words); how many bytes goes to the first place of `answer`.
#![tactic(auto)]

ghost use Rattle.std.specs.Prelude.{◌≡◌, length};
ghost use Rattle.index.specs.Arrays.{lent};
ghost use Rattle.index.specs.Step as Step;
ghost use Rattle.index.specs.Step.{file_length};
ghost use Rattle.index.specs.Answers.{how_many, wrote, LaterKept};
ghost use Rattle.words.specs.Exports.{left, left_by, count_in_words, word_count, answer_beside};

use index::Lent;

#[unsafe(no_mangle)]
pub extern "C" fn vecq_raw_file_length(
    fields: &[u64],
    answer: &mut [u64],
    codes: &[u8],
    scales: &[u32],
    keys: &[u64],
    keyed: &[bool],
    held: &[u32],
    alive: &[u64],
    codes2: &[u8],
    scales2: &[u32],
    years: &[u16],
) -> u8
    ensures { let a = lent codes.now scales.now keys.now keyed.now held.now alive.now codes2.now scales2.now years.now in
        left result fields.now answer.new a ≡ left_by 1 file_length fields.now answer.old a }
{
    let Some(index) = words::record_beside(fields, answer, 1) else {
        return 13;
    };
    let arrays = Lent {
        codes,
        scales,
        keys,
        keyed,
        held,
        alive,
        codes2,
        scales2,
        years,
    };
    let length = layout::file_length(index, &arrays);
    answer_words::put_count(length, answer)
}

#[unsafe(no_mangle)]
pub extern "C" fn vecq_raw_to_bytes(
    fields: &[u64],
    answer: &mut [u64],
    codes: &[u8],
    scales: &[u32],
    keys: &[u64],
    keyed: &[bool],
    held: &[u32],
    alive: &[u64],
    codes2: &[u8],
    scales2: &[u32],
    years: &[u16],
    file: &mut [u8],
) -> u8
    ensures answers { let a = lent codes.now scales.now keys.now keyed.now held.now alive.now codes2.now scales2.now years.now in
        let op = Step.write (length file.old) in
        wrote (count_in_words result answer.new) file.new ≡ answer_beside op a fields.now answer.old }
    ensures answer_kept { LaterKept (word_count result) answer.old answer.new }
    ensures file_kept { LaterKept (how_many (count_in_words result answer.new)) file.old file.new }
{
    let Some(index) = words::record_beside(fields, answer, 1) else {
        return 13;
    };
    let arrays = Lent {
        codes,
        scales,
        keys,
        keyed,
        held,
        alive,
        codes2,
        scales2,
        years,
    };
    let written = write::to_bytes(index, &arrays, file);
    answer_words::put_count(written, answer)
}
