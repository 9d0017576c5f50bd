// Drives every call of the index from the lines of standard input, and prints what each answered. An answer `?` says that the line can't be read.
// Numbers are hexadecimal; a vector is the binary32 patterns of its entries, eight digits each, run together, and `-` where it has none.
//
//   lend CODES SCALES KEYS KEYED HELD ALIVE CODES2 SCALES2 YEARS   arrays of these lengths, each element 0
//   set ARRAY I V, field NAME V                 an element of an array, a field of the record; an element of `alive` has 64 marks
//   new DIM SEED, working DIM WORKING SEED, residual DIM SEED, bits W, enable, compact
//   add VEC YEAR, add_keyed KEY VEC YEAR PRESENT, add_multi KEY VEC YEAR
//   relabel OLD NEW, remove KEY PRESENT, remove_at KEY SLOT PRESENT
//   key_of SLOT, contains KEY, slot_at KEY POSITION
//   score SLOT VEC
//   search K PLACES VEC, search_keyed K PLACES VEC, search_cascade K R PLACES VEC
//   length, write PLACES, read BYTES            the file's length, the file, an index from a file
//   dump                                        the record and the arrays
#![tactic(auto)]

ghost use Rattle.std.specs.Prelude.{◌≡◌, ◌≤◌};
ghost use Rattle.lines.specs.Lines.{GoesOn};

use index::{Added, Index, Lent, LentMut};
use lines::{Lines, Span, TooLong};
use print::Printer;
use refusal::Refusal;
use runs::InHex;
use score::Scored;
use std::io::Read;

// Each program needs a main of its own; what `encodings` and `leaves` share with it would be a crate for these few lines.
fn main(rt: HostRuntime) {
    let mut reader = rt.stdin();
    // As long as the longest line that is read, 140,000 bytes, and its newline.
    let mut buf = [0u8; 140001];
    let mut out = [0u8; 140001];
    run(
        &mut Lines::new(&mut reader, &mut buf),
        &mut Printer::new(&mut out),
    );
}

// How many elements of each array are lent.
#[derive(Clone, Copy)]
struct Lengths {
    codes: usize,
    scales: usize,
    keys: usize,
    keyed: usize,
    held: usize,
    alive: usize,
    codes2: usize,
    scales2: usize,
    years: usize,
}

impl Lengths {
    const NONE: Lengths = Lengths {
        codes: 0,
        scales: 0,
        keys: 0,
        keyed: 0,
        held: 0,
        alive: 0,
        codes2: 0,
        scales2: 0,
        years: 0,
    };
}

// The record of `new(1, 0)` as if it had been made.
fn first_record() -> Index {
    Index {
        dim: 1,
        working_dim: 1,
        seed: 0,
        bits: 5,
        residual: false,
        n: 0,
        live: 0,
        cascade: false,
    }
}

// What is carried from line to line. `fresh` says that the line lent arrays anew.
#[derive(Drop)]
struct State {
    index: Index,
    lent: Lengths,
    fresh: bool,
}

// Answers all lines. Nothing says that the input ends, so lines are counted, up to a number that no run uses up.
fn run<R: Read>(lines: &mut Lines<'_, R>, out: &mut Printer<'_>)
    ensures { lines.new.left ≡ 0 }
{
    let mut state = State {
        index: first_record(),
        lent: Lengths::NONE,
        fresh: false,
    };
    while let Some(next) = answer_with_fresh(lines, out, state) {
        state = next;
    }
}

// A function, since a literal of so many bytes beside the slices of it is more than the check unfolds.
fn code_bytes() -> [u8; 1048576] {
    [0; 1048576]
}

// Answers lines over the lent parts of arrays that are all 0, up to the line that lends arrays anew; `None` where the input has ended.
fn answer_with_fresh<R: Read>(
    lines: &mut Lines<'_, R>,
    out: &mut Printer<'_>,
    state: State,
) -> Option<State>
    ensures { GoesOn lines.old.left lines.new.left result }
{
    let mut codes = code_bytes();
    let mut scales = [0u32; 4096];
    let mut keys = [0u64; 4096];
    let mut keyed = [false; 4096];
    let mut held = [0u32; 4096];
    let mut alive = [0u64; 64];
    let mut codes2 = code_bytes();
    let mut scales2 = [0u32; 4096];
    let mut years = [0u16; 4096];
    let lent = state.lent;
    let a = lent.codes.min(1048576);
    let b = lent.scales.min(4096);
    let c = lent.keys.min(4096);
    let d = lent.keyed.min(4096);
    let e = lent.held.min(4096);
    let f = lent.alive.min(64);
    let g = lent.codes2.min(1048576);
    let h = lent.scales2.min(4096);
    let i = lent.years.min(4096);
    let mut arrays = LentMut {
        codes: &mut codes[..a],
        scales: &mut scales[..b],
        keys: &mut keys[..c],
        keyed: &mut keyed[..d],
        held: &mut held[..e],
        alive: &mut alive[..f],
        codes2: &mut codes2[..g],
        scales2: &mut scales2[..h],
        years: &mut years[..i],
    };
    answer_lines(lines, out, &mut arrays, state)
}

// Answers lines up to the one that lends arrays anew; `None` where the input has ended.
fn answer_lines<R: Read>(
    lines: &mut Lines<'_, R>,
    out: &mut Printer<'_>,
    arrays: &mut LentMut<'_>,
    first: State,
) -> Option<State>
    ensures { GoesOn lines.old.left lines.new.left result }
{
    let mut state = first;
    while let Some(found) = lines.next_line() {
        let next = turn(lines, found, out, arrays, state);
        state = next;
        if state.fresh {
            return Some(state);
        }
    }
    None
}

// Answers one line.
fn turn<R: Read>(
    lines: &Lines<'_, R>,
    found: Result<Span, TooLong>,
    out: &mut Printer<'_>,
    arrays: &mut LentMut<'_>,
    state: State,
) -> State {
    let index = state.index;
    // As many entries as a line can hold.
    let mut vector = [0.0f32; 17500];
    let mut file = [BYTE_MARK; 65536];
    let asked = match found {
        Ok(line) => read_line(lines.bytes(line), state.lent, &mut vector, &mut file),
        Err(TooLong) => Line {
            call: Call::UNREADABLE,
            lent: state.lent,
        },
    };
    let call = asked.call;
    let n = call.count.min(17500);
    let m = call.count.min(65536);
    let query = &vector[..n];
    let done = change(call, query, &file[..m], arrays, index);
    let next = answer(call, done, query, out, &arrays.view(), index);
    out.print_line();
    State {
        index: next,
        lent: asked.lent,
        fresh: call.command == Command::Lend,
    }
}

// ---- what a line asks for

#[derive(Clone, Copy, PartialEq, Eq)]
enum Array {
    Codes,
    Scales,
    Keys,
    Keyed,
    Held,
    Alive,
    Codes2,
    Scales2,
    Years,
}

const ARRAYS: [(&[u8], Array); 9] = [
    (b"codes", Array::Codes),
    (b"scales", Array::Scales),
    (b"keys", Array::Keys),
    (b"keyed", Array::Keyed),
    (b"held", Array::Held),
    (b"alive", Array::Alive),
    (b"codes2", Array::Codes2),
    (b"scales2", Array::Scales2),
    (b"years", Array::Years),
];

// A field of the record.
#[derive(Clone, Copy, PartialEq, Eq)]
enum Field {
    Dim,
    WorkingDim,
    Seed,
    Bits,
    Residual,
    N,
    Live,
    Cascade,
}

const FIELDS: [(&[u8], Field); 8] = [
    (b"dim", Field::Dim),
    (b"working_dim", Field::WorkingDim),
    (b"seed", Field::Seed),
    (b"bits", Field::Bits),
    (b"residual", Field::Residual),
    (b"n", Field::N),
    (b"live", Field::Live),
    (b"cascade", Field::Cascade),
];

impl Field {
    // The greatest value that the field's type holds.
    fn greatest(self) -> u64 {
        match self {
            Field::Bits => 0xFF,
            Field::Residual | Field::Cascade => 1,
            _ => u64::MAX,
        }
    }
}

// `Silent` is a line that asks nothing, `Unreadable` one that can't be read.
#[derive(Clone, Copy, PartialEq, Eq)]
enum Command {
    Silent,
    Unreadable,
    Lend,
    Set(Array),
    Field(Field),
    Dump,
    New,
    Working,
    Residual,
    Bits,
    Enable,
    Compact,
    Relabel,
    Remove,
    RemoveAt,
    KeyOf,
    Contains,
    SlotAt,
    Add,
    AddKeyed,
    AddMulti,
    Score,
    Search,
    SearchKeyed,
    SearchCascade,
    Length,
    Write,
    Read,
}

// The commands that one word names.
const COMMANDS: [(&[u8], Command); 24] = [
    (b"lend", Command::Lend),
    (b"dump", Command::Dump),
    (b"new", Command::New),
    (b"working", Command::Working),
    (b"residual", Command::Residual),
    (b"bits", Command::Bits),
    (b"enable", Command::Enable),
    (b"compact", Command::Compact),
    (b"relabel", Command::Relabel),
    (b"remove", Command::Remove),
    (b"remove_at", Command::RemoveAt),
    (b"key_of", Command::KeyOf),
    (b"contains", Command::Contains),
    (b"slot_at", Command::SlotAt),
    (b"add", Command::Add),
    (b"add_keyed", Command::AddKeyed),
    (b"add_multi", Command::AddMulti),
    (b"score", Command::Score),
    (b"search", Command::Search),
    (b"search_keyed", Command::SearchKeyed),
    (b"search_cascade", Command::SearchCascade),
    (b"length", Command::Length),
    (b"write", Command::Write),
    (b"read", Command::Read),
];

impl Command {
    // The command of a line: `set` and `field` with the name in the next field.
    fn of(line: &[u8]) -> Option<Command> {
        let word = text::field(line, 0);
        let name = text::field(line, 1);
        match word {
            b"set" => text::named(&ARRAYS, name).map(Command::Set),
            b"field" => text::named(&FIELDS, name).map(Command::Field),
            _ => text::named(&COMMANDS, word),
        }
    }

    // How many numbers a line of the command has before its vector; 0 too where `request_of` reads the line in another way.
    fn number_count(self) -> usize
        ensures { result ≤ 3 }
    {
        match self {
            Command::Silent
            | Command::Unreadable
            | Command::Lend
            | Command::Set(_)
            | Command::Field(_)
            | Command::Dump
            | Command::Enable
            | Command::Compact
            | Command::Add
            | Command::Length
            | Command::Read => 0,
            Command::Bits
            | Command::Remove
            | Command::KeyOf
            | Command::Contains
            | Command::AddKeyed
            | Command::AddMulti
            | Command::Score
            | Command::Write => 1,
            Command::New
            | Command::Residual
            | Command::Relabel
            | Command::RemoveAt
            | Command::SlotAt
            | Command::Search
            | Command::SearchKeyed => 2,
            Command::Working | Command::SearchCascade => 3,
        }
    }

    // Whether a vector comes after them.
    fn has_vector(self) -> bool {
        matches!(
            self,
            Command::Add
                | Command::AddKeyed
                | Command::AddMulti
                | Command::Score
                | Command::Search
                | Command::SearchKeyed
                | Command::SearchCascade
        )
    }

    // Whether a year comes after it.
    fn states_year(self) -> bool {
        matches!(self, Command::Add | Command::AddKeyed | Command::AddMulti)
    }

    // Whether the present year is its last field.
    fn tells_present(self) -> bool {
        matches!(
            self,
            Command::AddKeyed | Command::Remove | Command::RemoveAt
        )
    }

    // The field after its numbers, and its vector or bytes.
    fn year_field(self) -> usize
        ensures { result ≤ 5 }
    {
        if self.has_vector() || self == Command::Read {
            return self.number_count() + 2;
        }
        self.number_count() + 1
    }

    // The field after its year.
    fn present_field(self) -> usize
        ensures { result ≤ 6 }
    {
        self.year_field() + usize::from(self.states_year())
    }

    // How many fields it has, the command's word among them.
    fn field_total(self) -> usize {
        self.present_field() + usize::from(self.tells_present())
    }

    // Which of the numbers says how many places are lent.
    fn places_number(self) -> Option<usize> {
        match self {
            Command::Write => Some(1),
            Command::Search | Command::SearchKeyed => Some(2),
            Command::SearchCascade => Some(3),
            _ => None,
        }
    }

    // The greatest value of number i: a width is a u8, and the program has so many places for a file and for hits.
    fn greatest(self, i: usize) -> u64 {
        if self == Command::Bits {
            return 0xFF;
        }
        if self.places_number() != Some(i) {
            return u64::MAX;
        }
        if self == Command::Write { 65536 } else { 4096 }
    }
}

// A line's numbers; 0 for one that it hasn't: which it has is said by its command, and an Option each would say that again.
#[derive(Clone, Copy)]
struct Numbers {
    a: u64,
    b: u64,
    c: u64,
}

impl Numbers {
    const NONE: Numbers = Numbers { a: 0, b: 0, c: 0 };
}

// The year that a line states, and the present year that it tells; 0 for one that it hasn't, as in `Numbers`.
#[derive(Clone, Copy)]
struct Years {
    year: u16,
    present: u16,
}

impl Years {
    const NONE: Years = Years {
        year: 0,
        present: 0,
    };
}

// A line's command, its numbers, how many entries or bytes come after them, 0 where the line has none, and its years.
#[derive(Clone, Copy)]
struct Call {
    command: Command,
    numbers: Numbers,
    count: usize,
    years: Years,
}

impl Call {
    const SILENT: Call = Call {
        command: Command::Silent,
        numbers: Numbers::NONE,
        count: 0,
        years: Years::NONE,
    };

    const UNREADABLE: Call = Call {
        command: Command::Unreadable,
        numbers: Numbers::NONE,
        count: 0,
        years: Years::NONE,
    };
}

// What a line asks for, and how many elements of each array are lent after it.
#[derive(Clone, Copy)]
struct Line {
    call: Call,
    lent: Lengths,
}

fn read_line(line: &[u8], lent: Lengths, vector: &mut [f32], file: &mut [u8]) -> Line {
    let call = call_of(line, vector, file).unwrap_or(Call::UNREADABLE);
    if call.command != Command::Lend {
        return Line { call, lent };
    }
    Line {
        call,
        lent: lengths_of(line).unwrap_or(lent),
    }
}

// What a line that can be read asks for; its vector or its bytes are read into the lent places.
fn call_of(line: &[u8], vector: &mut [f32], file: &mut [u8]) -> Option<Call> {
    if text::is_silent(line) {
        return Some(Call::SILENT);
    }
    let command = Command::of(line)?;
    let count = read_run(line, command, vector, file)?;
    let numbers = request_of(line, command)?;
    let years = years_of(line, command)?;
    Some(Call {
        command,
        numbers,
        count,
        years,
    })
}

// The vector or the bytes of a line.
fn read_run(line: &[u8], command: Command, vector: &mut [f32], file: &mut [u8]) -> Option<usize> {
    if command.has_vector() {
        return values::vector_at(line, command.number_count() + 1, vector);
    }
    if command == Command::Read {
        return values::bytes_at(line, 1, file);
    }
    Some(0)
}

// The fields of `lend`, `set` and `field` are not all numbers of a call.
fn request_of(line: &[u8], command: Command) -> Option<Numbers> {
    match command {
        Command::Lend => {
            lengths_of(line)?;
            Some(Numbers::NONE)
        }
        Command::Set(_) => poke_of(line),
        Command::Field(field) => field_value(line, field),
        _ => numbers_of(line, command),
    }
}

// Number i of a line, or 0 where it has no more than n.
fn argument(line: &[u8], i: usize, n: usize, most: u64) -> Option<u64> {
    if n < i {
        return Some(0);
    }
    values::number_at(line, i, most)
}

fn numbers_of(line: &[u8], command: Command) -> Option<Numbers> {
    if text::field_count(line) != command.field_total() {
        return None;
    }
    let n = command.number_count();
    let a = argument(line, 1, n, command.greatest(1))?;
    let b = argument(line, 2, n, command.greatest(2))?;
    let c = argument(line, 3, n, command.greatest(3))?;
    Some(Numbers { a, b, c })
}

// The years of a line.
fn years_of(line: &[u8], command: Command) -> Option<Years> {
    let year = year_at(line, command.year_field(), command.states_year())?;
    let present = year_at(line, command.present_field(), command.tells_present())?;
    Some(Years { year, present })
}

// The year in field i of a line, or 0 where it has none.
fn year_at(line: &[u8], i: usize, has: bool) -> Option<u16> {
    if !has {
        return Some(0);
    }
    values::number_at(line, i, 0xFFFF).map(|year| year as u16)
}

// What `set` sets in the array: a place and a value.
fn poke_of(line: &[u8]) -> Option<Numbers> {
    if text::field_count(line) != 4 {
        return None;
    }
    let a = values::number_at(line, 2, u64::MAX)?;
    let b = values::number_at(line, 3, u64::MAX)?;
    Some(Numbers { a, b, c: 0 })
}

// What `field` sets: a value that the field's type holds.
fn field_value(line: &[u8], field: Field) -> Option<Numbers> {
    if text::field_count(line) != 3 {
        return None;
    }
    let a = values::number_at(line, 2, field.greatest())?;
    Some(Numbers { a, b: 0, c: 0 })
}

// ---- lending

// The line's length for each array, at most what the program holds.
fn lengths_of(line: &[u8]) -> Option<Lengths> {
    if text::field_count(line) != 10 {
        return None;
    }
    Some(Lengths {
        codes: length_at(line, 1, 1048576)?,
        scales: length_at(line, 2, 4096)?,
        keys: length_at(line, 3, 4096)?,
        keyed: length_at(line, 4, 4096)?,
        held: length_at(line, 5, 4096)?,
        alive: length_at(line, 6, 64)?,
        codes2: length_at(line, 7, 1048576)?,
        scales2: length_at(line, 8, 4096)?,
        years: length_at(line, 9, 4096)?,
    })
}

fn length_at(line: &[u8], i: usize, most: u64) -> Option<usize> {
    values::number_at(line, i, most).map(|n| n as usize)
}

// ---- changes

// What a change answered, by the kind of its call.
#[derive(Drop)]
enum Done {
    Nothing,
    Element(bool),
    Record(Result<Index, Refusal>),
    Marks(Result<Option<Index>, Refusal>),
    Slot(Result<Added, Refusal>),
}

// The calls that change the arrays; no other line does. Only this function passes the arrays on to be changed, the others lend them to be read: the check takes
// longest where they may change.
fn change(call: Call, vector: &[f32], file: &[u8], arrays: &mut LentMut<'_>, index: Index) -> Done {
    let numbers = call.numbers;
    let years = call.years;
    match call.command {
        Command::Set(array) => Done::Element(set_element(
            arrays,
            array,
            numbers.a as usize,
            numbers.b,
        )),
        Command::New => Done::Record(make::new(numbers.a as usize, numbers.b, arrays)),
        Command::Working => Done::Record(make::with_working_dim(
            numbers.a as usize,
            numbers.b as usize,
            numbers.c,
            arrays,
        )),
        Command::Residual => {
            Done::Record(make::with_residual(numbers.a as usize, numbers.b, arrays))
        }
        Command::Compact => Done::Record(compact::compact(index, arrays)),
        Command::Relabel | Command::Remove | Command::RemoveAt => change_marks(
            call,
            arrays.codes,
            arrays.scales,
            arrays.keys,
            arrays.keyed,
            arrays.held,
            arrays.alive,
            arrays.codes2,
            arrays.scales2,
            arrays.years,
            index,
        ),
        Command::Add => Done::Slot(add::add(index, arrays, vector, years.year)),
        Command::AddKeyed => Done::Slot(add_keyed::add_keyed(
            index,
            arrays,
            numbers.a,
            vector,
            years.year,
            years.present,
        )),
        Command::AddMulti => Done::Slot(add_multi::add_keyed_multi(
            index, arrays, numbers.a, vector, years.year,
        )),
        Command::Read => Done::Record(read::from_bytes(arrays, file)),
        _ => Done::Nothing,
    }
}

// Relabelling and the removals, which leave codes and scales alone. The arrays come one by one, since these calls read some and change others: the borrow check
// does not cover a call that is lent both kinds from behind one reference, as fields of `arrays`, nor one after `let LentMut { .. } = arrays`.
fn change_marks(
    call: Call,
    codes: &mut [u8],
    scales: &mut [u32],
    keys: &mut [u64],
    keyed: &mut [bool],
    held: &mut [u32],
    alive: &mut [u64],
    codes2: &mut [u8],
    scales2: &mut [u32],
    years: &mut [u16],
    index: Index,
) -> Done {
    let numbers = call.numbers;
    let present = call.years.present;
    match call.command {
        Command::Relabel => Done::Marks(relabel::relabel(
            index, codes, scales, keys, keyed, held, alive, codes2, scales2, years, numbers.a,
            numbers.b,
        )),
        Command::Remove => Done::Marks(removal::remove_keyed(
            index, codes, scales, keys, keyed, held, alive, codes2, scales2, years, numbers.a,
            present,
        )),
        Command::RemoveAt => Done::Marks(removal::remove_keyed_at(
            index,
            codes,
            scales,
            keys,
            keyed,
            held,
            alive,
            codes2,
            scales2,
            years,
            numbers.a,
            numbers.b as usize,
            present,
        )),
        _ => Done::Nothing,
    }
}

// Sets an element, where the array has it and its type holds the value.
fn set_element(arrays: &mut LentMut<'_>, array: Array, i: usize, x: u64) -> bool {
    match array {
        Array::Codes => poke(arrays.codes, i, x),
        Array::Scales => poke(arrays.scales, i, x),
        Array::Keys => poke(arrays.keys, i, x),
        Array::Keyed => poke(arrays.keyed, i, x),
        Array::Held => poke(arrays.held, i, x),
        Array::Alive => poke(arrays.alive, i, x),
        Array::Codes2 => poke(arrays.codes2, i, x),
        Array::Scales2 => poke(arrays.scales2, i, x),
        Array::Years => poke(arrays.years, i, x),
    }
}

// A trait of its own, since `bool` is no `TryFrom<u64>`.
trait Element: Copy {
    // The element that stands for the number, where there is one.
    fn of_number(x: u64) -> Option<Self>;
}

impl Element for u8 {
    fn of_number(x: u64) -> Option<u8> {
        u8::try_from(x).ok()
    }
}

impl Element for u16 {
    fn of_number(x: u64) -> Option<u16> {
        u16::try_from(x).ok()
    }
}

impl Element for u32 {
    fn of_number(x: u64) -> Option<u32> {
        u32::try_from(x).ok()
    }
}

impl Element for u64 {
    fn of_number(x: u64) -> Option<u64> {
        Some(x)
    }
}

impl Element for bool {
    fn of_number(x: u64) -> Option<bool> {
        (x <= 1).then_some(x == 1)
    }
}

fn poke<T: Element>(xs: &mut [T], i: usize, x: u64) -> bool {
    let Some(element) = T::of_number(x) else {
        return false;
    };
    let Some(place) = xs.get_mut(i) else {
        return false;
    };
    *place = element;
    true
}

// ---- questions

// Puts the answer to a line, after what the line changed, and answers the record.
fn answer(
    call: Call,
    done: Done,
    vector: &[f32],
    out: &mut Printer<'_>,
    arrays: &Lent<'_>,
    index: Index,
) -> Index {
    match call.command {
        Command::Dump => dump(out, arrays, index),
        Command::Search | Command::SearchCascade => list_slots(call, vector, out, arrays, index),
        Command::SearchKeyed => list_keys(call, vector, out, arrays, index),
        Command::Write => write_file(call, out, arrays, index),
        _ => {
            let outcome = ask(call, done, vector, arrays, index);
            put_reply(out, outcome.reply);
            return outcome.index;
        }
    }
    index
}

// The calls that are answered in a word or two and only read the arrays. Any other line says what it did.
fn ask(call: Call, done: Done, vector: &[f32], arrays: &Lent<'_>, index: Index) -> Outcome {
    let numbers = call.numbers;
    match call.command {
        Command::Bits => after_made(
            settings::set_bits(index, arrays, low_byte(numbers.a)),
            index,
        ),
        Command::Enable => after_made(settings::enable_cascade(index, arrays), index),
        Command::KeyOf => Outcome {
            index,
            reply: of_key(keys::key_of(index, arrays, numbers.a as usize)),
        },
        Command::Contains => Outcome {
            index,
            reply: of_asked(keys::contains_key(index, arrays, numbers.a)),
        },
        Command::SlotAt => Outcome {
            index,
            reply: of_held(keys::slot_at(index, arrays, numbers.a, numbers.b as usize)),
        },
        Command::Score => Outcome {
            index,
            reply: of_score(score_slot::score(index, arrays, numbers.a as usize, vector)),
        },
        Command::Length => Outcome {
            index,
            reply: of_length(layout::file_length(index, arrays)),
        },
        _ => after(call, done, index),
    }
}

fn low_byte(n: u64) -> u8 {
    (n % 256) as u8
}

// Functions by name and no `From`: by their types alone, `u64` and `usize`, a key and a slot, or a slot and a length, are hard to tell apart.
fn of_key(key: Result<Option<u64>, Refusal>) -> Reply {
    match key {
        Ok(Some(k)) => Reply::Key(k),
        Ok(None) => Reply::None,
        Err(refusal) => Reply::Refused(u8::from(refusal)),
    }
}

fn of_asked(asked: Result<bool, Refusal>) -> Reply {
    match asked {
        Ok(true) => Reply::Yes,
        Ok(false) => Reply::No,
        Err(refusal) => Reply::Refused(u8::from(refusal)),
    }
}

fn of_held(held: Result<Option<usize>, Refusal>) -> Reply {
    match held {
        Ok(Some(i)) => Reply::Slot(i),
        Ok(None) => Reply::None,
        Err(refusal) => Reply::Refused(u8::from(refusal)),
    }
}

fn of_score(scored: Scored) -> Reply {
    match scored {
        Scored::Score(x) => Reply::Score(pattern::to_bits(x)),
        Scored::Refused(n) => Reply::Refused(n),
    }
}

fn of_length(length: Result<usize, Refusal>) -> Reply {
    match length {
        Ok(n) => Reply::Length(n),
        Err(refusal) => Reply::Refused(u8::from(refusal)),
    }
}

// ---- lists and files

// Places for results each hold a mark, by which a change is seen.
const SLOT_MARK: u32 = 0xFFFF_FFFF;

const KEY_MARK: u64 = 0xFFFF_FFFF_FFFF_FFFF;

const SCORE_MARK: f32 = 1.0;

const BYTE_MARK: u8 = 0xFF;

// The slots as numbers of the size of keys.
fn put_slots(out: &mut Printer<'_>, found: Result<usize, Refusal>, slots: &[u32], scores: &[f32]) {
    let mut numbers = [0u64; 4096];
    for (number, slot) in numbers.iter_mut().zip(slots) {
        *number = *slot as u64;
    }
    let n = slots.len().min(4096);
    put_found(out, found, &numbers[..n], SLOT_MARK as u64, scores);
}

fn list_slots(call: Call, vector: &[f32], out: &mut Printer<'_>, arrays: &Lent<'_>, index: Index) {
    let mut slots = [SLOT_MARK; 4096];
    let mut scores = [SCORE_MARK; 4096];
    let n = places(call).min(4096);
    search_slots(
        call,
        vector,
        out,
        arrays,
        index,
        &mut slots[..n],
        &mut scores[..n],
    );
}

fn search_slots(
    call: Call,
    vector: &[f32],
    out: &mut Printer<'_>,
    arrays: &Lent<'_>,
    index: Index,
    slots: &mut [u32],
    scores: &mut [f32],
) {
    if call.command == Command::Search {
        let found = search::search(
            index,
            arrays,
            vector,
            call.numbers.a as usize,
            slots,
            scores,
        );
        put_slots(out, found, slots, scores);
        return;
    }
    let found = search_cascade::search_cascade(
        index,
        arrays,
        vector,
        call.numbers.a as usize,
        call.numbers.b as usize,
        slots,
        scores,
    );
    put_slots(out, found, slots, scores);
}

// As `list_slots`, but its places are for keys, of another type, which no other search writes.
fn list_keys(call: Call, vector: &[f32], out: &mut Printer<'_>, arrays: &Lent<'_>, index: Index) {
    let mut names = [KEY_MARK; 4096];
    let mut scores = [SCORE_MARK; 4096];
    let n = (call.numbers.b as usize).min(4096);
    search_keys(
        call,
        vector,
        out,
        arrays,
        index,
        &mut names[..n],
        &mut scores[..n],
    );
}

fn search_keys(
    call: Call,
    vector: &[f32],
    out: &mut Printer<'_>,
    arrays: &Lent<'_>,
    index: Index,
    names: &mut [u64],
    scores: &mut [f32],
) {
    let found = search_keyed::search_keyed(
        index,
        arrays,
        vector,
        call.numbers.a as usize,
        names,
        scores,
    );
    put_found(out, found, names, KEY_MARK, scores);
}

fn write_file(call: Call, out: &mut Printer<'_>, arrays: &Lent<'_>, index: Index) {
    let mut file = [BYTE_MARK; 65536];
    let n = (call.numbers.a as usize).min(65536);
    write_into(out, arrays, index, &mut file[..n]);
}

fn write_into(out: &mut Printer<'_>, arrays: &Lent<'_>, index: Index, file: &mut [u8]) {
    let written = write::to_bytes(index, arrays, file);
    put_file(out, written, file);
}

// How many places a line of the command lends.
fn places(call: Call) -> usize {
    if call.command == Command::SearchCascade {
        return call.numbers.c as usize;
    }
    call.numbers.b as usize
}

// ---- answers in words

// What a call answers in a word or two: an enum of its own, since most of the kinds are neither an Option nor a Result.
#[derive(Drop)]
enum Reply {
    Unreadable,
    Silent,
    Ok,
    Yes,
    No,
    None,
    Slot(usize),
    Key(u64),
    Length(usize),
    Score(u32),
    Refused(u8),
}

// After a call: the record, and what it answered.
#[derive(Drop)]
struct Outcome {
    index: Index,
    reply: Reply,
}

// What a line did that asked nothing of the arrays.
fn after(call: Call, done: Done, index: Index) -> Outcome {
    match done {
        Done::Nothing => without_arrays(call, index),
        Done::Element(x) => after_set(x, index),
        Done::Record(x) => after_made(x, index),
        Done::Marks(x) => after_changed(x, index),
        Done::Slot(x) => after_added(x, index),
    }
}

// A line that no array has a part in.
fn without_arrays(call: Call, index: Index) -> Outcome {
    match call.command {
        Command::Lend => Outcome {
            index,
            reply: Reply::Ok,
        },
        Command::Field(field) => Outcome {
            index: with_field(index, field, call.numbers.a),
            reply: Reply::Ok,
        },
        Command::Silent => Outcome {
            index,
            reply: Reply::Silent,
        },
        _ => Outcome {
            index,
            reply: Reply::Unreadable,
        },
    }
}

fn with_field(index: Index, field: Field, x: u64) -> Index {
    let mut y = index;
    match field {
        Field::Dim => y.dim = x as usize,
        Field::WorkingDim => y.working_dim = x as usize,
        Field::Seed => y.seed = x,
        Field::Bits => y.bits = low_byte(x),
        Field::Residual => y.residual = x == 1,
        Field::N => y.n = x as usize,
        Field::Live => y.live = x as usize,
        Field::Cascade => y.cascade = x == 1,
    }
    y
}

fn after_set(done: bool, index: Index) -> Outcome {
    if !done {
        return Outcome {
            index,
            reply: Reply::Unreadable,
        };
    }
    Outcome {
        index,
        reply: Reply::Ok,
    }
}

fn after_made(made: Result<Index, Refusal>, index: Index) -> Outcome {
    match made {
        Ok(x) => Outcome {
            index: x,
            reply: Reply::Ok,
        },
        Err(refusal) => Outcome {
            index,
            reply: Reply::Refused(u8::from(refusal)),
        },
    }
}

fn after_changed(changed: Result<Option<Index>, Refusal>, index: Index) -> Outcome {
    match changed {
        Ok(Some(x)) => Outcome {
            index: x,
            reply: Reply::Yes,
        },
        Ok(None) => Outcome {
            index,
            reply: Reply::No,
        },
        Err(refusal) => Outcome {
            index,
            reply: Reply::Refused(u8::from(refusal)),
        },
    }
}

fn after_added(added: Result<Added, Refusal>, index: Index) -> Outcome {
    match added {
        Ok(added) => Outcome {
            index: added.index,
            reply: Reply::Slot(added.slot),
        },
        Err(refusal) => Outcome {
            index,
            reply: Reply::Refused(u8::from(refusal)),
        },
    }
}

fn put_reply(out: &mut Printer<'_>, reply: Reply) {
    match reply {
        Reply::Slot(i) => put_with(out, b"slot ", i as u64, 1),
        Reply::Key(k) => put_with(out, b"key ", k, 1),
        Reply::Length(n) => put_with(out, b"length ", n as u64, 1),
        Reply::Score(x) => put_with(out, b"score ", x as u64, 8),
        Reply::Refused(n) => put_refused(out, n),
        Reply::Silent => {}
        Reply::Ok => out.put_bytes(b"ok"),
        Reply::Yes => out.put_bytes(b"yes"),
        Reply::No => out.put_bytes(b"no"),
        Reply::None => out.put_bytes(b"none"),
        Reply::Unreadable => out.put_byte(print::UNREADABLE),
    }
}

// A word and a number, in so many digits at least.
fn put_with(out: &mut Printer<'_>, word: &[u8], number: u64, digits: usize) {
    out.put_bytes(word);
    numerals::put_hex(out, number, digits);
}

// `encodings` has one too: a crate of the two lines would be longer.
fn put_refused(out: &mut Printer<'_>, number: u8) {
    out.put_bytes(b"refused ");
    numerals::put_decimal(out, number as u64);
}

// ---- results in words

// Says where a place past the answer was changed, before the answer.
fn put_spilt(out: &mut Printer<'_>, kept: bool) {
    if !kept {
        out.put_bytes(b"spilt ");
    }
}

// Whether the places from n on hold their mark.
fn kept<T: PartialEq + Copy>(xs: &[T], n: usize, mark: T) -> bool {
    xs.iter().skip(n).all(|x| *x == mark)
}

fn put_hit(out: &mut Printer<'_>, number: u64, score: f32) {
    out.put_byte(b' ');
    numerals::put_hex(out, number, 1);
    out.put_byte(b':');
    numerals::put_hex(out, pattern::to_bits(score) as u64, 8);
}

fn put_hits(out: &mut Printer<'_>, numbers: &[u64], scores: &[f32], n: usize) {
    out.put_bytes(b"list");
    for (number, score) in numbers.iter().zip(scores).take(n) {
        put_hit(out, *number, *score);
    }
}

fn put_found(
    out: &mut Printer<'_>,
    found: Result<usize, Refusal>,
    numbers: &[u64],
    mark: u64,
    scores: &[f32],
) {
    let taken = found.unwrap_or(0);
    put_spilt(
        out,
        kept(numbers, taken, mark) && kept(scores, taken, SCORE_MARK),
    );
    match found {
        Ok(n) => put_hits(out, numbers, scores, n),
        Err(refusal) => put_refused(out, u8::from(refusal)),
    }
}

fn put_file(out: &mut Printer<'_>, written: Result<usize, Refusal>, file: &[u8]) {
    put_spilt(out, kept(file, written.unwrap_or(0), BYTE_MARK));
    match written {
        Ok(n) => {
            out.put_bytes(b"bytes ");
            runs::put_run(out, &file[..n.min(file.len())]);
        }
        Err(refusal) => put_refused(out, u8::from(refusal)),
    }
}

// ---- dump

// The record and the arrays. What there is of it is written out wherever it is much.
fn dump(out: &mut Printer<'_>, arrays: &Lent<'_>, index: Index) {
    put_record(out, index);
    put_array(out, b" codes ", arrays.codes);
    put_array(out, b" scales ", arrays.scales);
    put_array(out, b" keys ", arrays.keys);
    put_array(out, b" keyed ", arrays.keyed);
    put_array(out, b" held ", arrays.held);
    put_array(out, b" alive ", arrays.alive);
    put_array(out, b" codes2 ", arrays.codes2);
    put_array(out, b" scales2 ", arrays.scales2);
    put_array(out, b" years ", arrays.years);
}

fn put_record(out: &mut Printer<'_>, index: Index) {
    out.put_bytes(b"record");
    put_field(out, index.dim as u64);
    put_field(out, index.working_dim as u64);
    put_field(out, index.seed);
    put_field(out, index.bits as u64);
    put_field(out, index.residual as u64);
    put_field(out, index.n as u64);
    put_field(out, index.live as u64);
    put_field(out, index.cascade as u64);
}

fn put_field(out: &mut Printer<'_>, x: u64) {
    out.put_byte(b' ');
    numerals::put_hex(out, x, 1);
}

// The name of an array and its elements, so many digits each; `-` where there is none.
fn put_array<T: InHex + Copy>(out: &mut Printer<'_>, name: &[u8], xs: &[T]) {
    out.put_bytes(name);
    if xs.is_empty() {
        out.put_byte(b'-');
    }
    for x in xs {
        make_room(out);
        numerals::put_hex(out, x.number(), T::DIGITS);
    }
}

// Writes out what is printed where it is much, so that the next element has room, and the next array's name.
fn make_room(out: &mut Printer<'_>) {
    if 100000 <= out.text().len() {
        out.flush();
    }
}
