// Reading: an index from the bytes of a file. All tests come first; then each block is written over the first places of its arrays.
#![tactic(auto)]

ghost use Rattle.std.specs.Prelude.{◌≡◌, true, false, cond, ◌*◌, ◌≤◌, length, take, drop, set, ltb};
ghost use Rattle.lists.specs.Lists.{tab, over};
ghost use Rattle.marks.specs.Live.{marks_in, no_marks};
ghost use Rattle.half.specs.Half.{widened};
ghost use Rattle.encode.specs.Header.{block_size};
ghost use Rattle.refusal.specs.Refusal.{fault_of};
ghost use Rattle.index.specs.Lent.{contents, contents_mut, SameLent};
ghost use Rattle.index.specs.Verdict.{verdict};
ghost use Rattle.index.specs.State.{record_of, scales_of, blocks_of};
ghost use Rattle.index.specs.Form.{stage_size};
ghost use Rattle.index.specs.Read.{little_endian, form_in, header_in, count_in, head_fault, over_limits, first_length, second_length, stages_in, second_in, table_in, entry_count, table_length, years_in, years_length, year_in, stage_from, entry_from, well_keyed, state_in, read_refusal, read_into};
ghost use Rattle.held_order.specs.Restored.{rising_position};
ghost use Rattle.index.specs.Make.{begun};
ghost use Rattle.read.specs.Table.{slots_from, word_from, on_from};
ghost use Rattle.read.specs.Parts.{rest_short, keys_sound, body_fault};

use index::{Form, Index, Lent, LentMut};
use refusal::Refusal;

// ---- key entries

#[tactic(auto, unfolding(index::specs::Read::entry_from))]
fn entry_slot(table: &[u8], i: u32) -> usize
    ensures { result ≡ (entry_from table.now i).slot }
{
    little_endian::rd_u32(little_endian::after(table, 4 + i as usize * 12)) as usize
}

#[tactic(auto, unfolding(index::specs::Read::entry_from))]
fn entry_key(table: &[u8], i: u32) -> u64
    ensures { result ≡ (entry_from table.now i).key }
{
    little_endian::rd_u64(little_endian::after(table, 8 + i as usize * 12))
}

// Whether each slot is below n and none comes twice.
fn each_once(table: &[u8], entries: u32, n: usize) -> bool
    requires { n ≤ 65536 }
    ensures { result ≡ well_keyed n (slots_from table.now entries) }
{
    let mut seen = [false; 65536];
    for i in 0..entries {
        let slot = entry_slot(table, i);
        if n <= slot {
            return false;
        }
        if seen[slot] {
            return false;
        }
        seen[slot] = true;
    }
    true
}

// A slot below n gets a key. That both arrays have the slots is a clause of each function here: a struct of the two, made for this walk alone, would be longer.
fn give_key(keys: &mut [u64], keyed: &mut [bool], n: usize, slot: usize, key: u64)
    requires { (n ≤ length keys.old) × (n ≤ length keyed.old) }
    ensures keys_after { keys.new ≡ cond (ltb slot n) (set keys.old slot key) keys.old }
    ensures keyed_after { keyed.new ≡ cond (ltb slot n) (set keyed.old slot true) keyed.old }
{
    if slot < n {
        keys[slot] = key;
        keyed[slot] = true;
    }
}

// Gives the first n slots the keys of the entries, the last one's where a slot comes again, and no key to the others.
fn set_keys(keys: &mut [u64], keyed: &mut [bool], table: &[u8], entries: u32, n: usize)
    requires { (n ≤ length keys.old) × (n ≤ length keyed.old) }
    ensures keys_after { keys.new ≡ over (tab (word_from table.now entries) n) keys.old }
    ensures keyed_after { keyed.new ≡ over (tab (on_from table.now entries) n) keyed.old }
{
    keys[..n].fill(0);
    keyed[..n].fill(false);
    for i in 0..entries {
        give_key(keys, keyed, n, entry_slot(table, i), entry_key(table, i));
    }
}

// The keys of the table, in rising held order, on n live slots.
fn read_marks(
    keys: &mut [u64],
    keyed: &mut [bool],
    held: &mut [u32],
    alive: &mut [u64],
    table: &[u8],
    entries: u32,
    n: usize,
)
    requires { (n ≤ 65536) × (n ≤ length keys.old) × (n ≤ length keyed.old) × (n ≤ length held.old) × (n ≤ length (marks_in alive.old)) }
    ensures keys_after { keys.new ≡ over (tab (word_from table.now entries) n) keys.old }
    ensures keyed_after { keyed.new ≡ over (tab (on_from table.now entries) n) keyed.old }
    ensures held_after { held.new ≡ over (tab (rising_position keys.new keyed.new) n) held.old }
    ensures alive_after { marks_in alive.new ≡ over (tab (λ _. 1) n) (no_marks (marks_in alive.old)) }
{
    set_keys(keys, keyed, table, entries, n);
    held_order::restore_order(keys, keyed, held, n);
    marks::mark_live(alive, n);
}

// ---- scales

// The scales that the bytes begin with: halves, read as binary32 patterns. Each of two bytes that are there, as in `read_years`.
fn read_scales(scales: &mut [u32], bytes: &[u8], n: usize)
    requires room { (n ≤ length scales.old) × (n ≤ 65536) }
    requires bytes_fit { n * 2 ≤ length bytes.now }
    ensures { scales.new ≡ over (tab (λ i. widened (little_endian 2 (drop (i * 2) bytes.now))) n) scales.old }
{
    for (i, scale) in scales[..n].iter_mut().enumerate() {
        let at = i * 2;
        let half = u16::from_le_bytes([bytes[at], bytes[at + 1]]);
        *scale = half::f16_bits_to_f32(half);
    }
}

// ---- codes

// The first bytes, over the first codes. By a loop: with `copy_from_slice` the library for C would need memcpy from outside.
fn read_codes(codes: &mut [u8], bytes: &[u8], many: usize)
    requires { (many ≤ length codes.old) × (many ≤ length bytes.now) }
    ensures { codes.new ≡ over (take many bytes.now) codes.old }
{
    for (i, code) in codes[..many].iter_mut().enumerate() {
        *code = bytes[i];
    }
}

// ---- the head

// Refusal 20 for dim and count alone.
#[tactic(auto, unfolding(index::specs::Read::header_in))]
fn over_limits(file: &[u8]) -> bool
    ensures { result ≡ over_limits file.now }
{
    let head = header::head_in(file);
    4096 < head.header.dim || 65536 < head.count
}

// The record of the index that the file holds: all its slots are live.
fn index_in(file: &[u8]) -> Index
    ensures { result ≡ record_of (state_in file.now) }
{
    let head = header::head_in(file);
    let header = head.header;
    let n = head.count as usize;
    Index {
        dim: header.dim,
        working_dim: header.working_dim,
        seed: header.seed,
        bits: header.bits,
        residual: header.residual,
        n,
        live: n,
        cascade: false,
    }
}

// ---- what follows the head

// A file whose head and limits are sound, with what its version has, how many bytes a block takes and how many slots there are.
#[derive(Clone, Copy)]
struct File<'a> {
    bytes: &'a [u8],
    form: Form,
    block: u16,
    n: u32,
    ghost form_is: { form ≡ form_in bytes.now },
    ghost block_is: { block ≡ block_size (header_in bytes.now) },
    ghost count_is: { n ≡ count_in bytes.now },
    ghost few_slots: { n ≤ 65536 },
}

fn file_in(bytes: &[u8]) -> File<'_>
    requires { (head_fault bytes.now ≡ 0) × (over_limits bytes.now ≡ false) }
    ensures { result.bytes.now ≡ bytes.now }
{
    let head = header::head_in(bytes);
    File {
        bytes,
        form: form::form_of(head.version),
        block: room::block_size(index_in(bytes)) as u16,
        n: head.count,
    }
}

impl<'a> File<'a> {
    // ---- parts

    // How long each stage is.
    fn stage_length(&self) -> usize
        ensures { result ≡ first_length self.now.bytes.now }
    {
        form::stage_size(self.block, self.n)
    }

    // How long the second stage is; 0 where there is none.
    fn second_length(&self) -> usize
        ensures { result ≡ second_length self.now.bytes.now }
    {
        if self.form.second {
            self.stage_length()
        } else {
            0
        }
    }

    // How many second stages there are.
    fn seconds(&self) -> u32
        ensures { result ≡ cond self.now.form.second self.now.n 0 }
    {
        if self.form.second { self.n } else { 0 }
    }

    fn first_stage(&self) -> &'a [u8]
        ensures { result.now ≡ stages_in self.now.bytes.now }
    {
        header::stages_in(self.bytes)
    }

    // What follows the first stage.
    fn second_stage(&self) -> &'a [u8]
        ensures { result.now ≡ second_in self.now.bytes.now }
    {
        little_endian::after(self.first_stage(), self.stage_length())
    }

    // What follows both stages.
    fn table(&self) -> &'a [u8]
        ensures { result.now ≡ table_in self.now.bytes.now }
    {
        little_endian::after(self.second_stage(), self.second_length())
    }

    // How many key entries there are.
    fn entry_count(&self) -> u32
        ensures { result ≡ entry_count self.now.bytes.now }
    {
        if self.form.keys {
            little_endian::rd_u32(self.table())
        } else {
            0
        }
    }

    // How long the key table is.
    fn table_length(&self) -> usize
        ensures { result ≡ table_length self.now.bytes.now }
    {
        form::table_size(self.form, self.entry_count())
    }

    // What follows the key table.
    fn years(&self) -> &'a [u8]
        ensures { result.now ≡ years_in self.now.bytes.now }
    {
        little_endian::after(self.table(), self.table_length())
    }

    // ---- tests

    // Whether the file ends before its second stage does, its key table, or its years.
    fn is_rest_short(&self) -> bool
        ensures { result ≡ rest_short self.now.bytes.now }
    {
        self.second_stage().len() < self.second_length()
            || self.table().len() < self.table_length()
            || self.years().len() < form::years_size(self.form, self.n)
    }

    fn is_keyed_soundly(&self) -> bool
        ensures { result ≡ keys_sound self.now.bytes.now }
    {
        each_once(self.table(), self.entry_count(), self.n as usize)
    }

    // The refusal that what follows the head gives.
    #[tactic(auto, unfolding(crate::specs::Parts::body_fault, index::specs::Step::first_of, index::specs::Read::header_in))]
    fn check(&self) -> Result<(), Refusal>
        ensures { fault_of result ≡ body_fault self.now.bytes.now }
    {
        if self.first_stage().len() < self.stage_length() {
            return Err(Refusal::EndsEarly);
        }
        if header::head_in(self.bytes).header.dim == 0 {
            return Err(Refusal::FileDims);
        }
        if self.is_rest_short() {
            return Err(Refusal::EndsEarly);
        }
        if !self.is_keyed_soundly() {
            return Err(Refusal::KeyEntry);
        }
        Ok(())
    }

    // ---- stages

    // The scales and the blocks of one stage, from bytes that begin with the scales.
    fn read_stage(&self, codes: &mut [u8], scales: &mut [u32], bytes: &[u8], n: u32)
        requires room { (n ≤ 65536) × (n * self.now.block ≤ length codes.old) × (n ≤ length scales.old) }
        requires bytes_fit { stage_size self.now.block n ≤ length bytes.now }
        ensures codes_after { codes.new ≡ over (blocks_of (tab (stage_from self.now.block n bytes.now) n)) codes.old }
        ensures scales_after { scales.new ≡ over (scales_of (tab (stage_from self.now.block n bytes.now) n)) scales.old }
    {
        let n = n as usize;
        read_scales(scales, bytes, n);
        let blocks = little_endian::after(bytes, n * 2);
        read_codes(codes, blocks, n * self.block as usize);
    }

    // ---- years

    // A year for each slot, from the year block; 1 where the version has none. Each of two bytes that are there: `rd_u16` tests for the end as well, and with it
    // 65,536 years took 0.2 ms in place of 0.01.
    fn read_years(&self, years: &mut [u16])
        requires room { self.now.n ≤ length years.old }
        requires bytes_fit { years_length self.now.bytes.now ≤ length (years_in self.now.bytes.now) }
        ensures { years.new ≡ over (tab (year_in self.now.bytes.now) self.now.n) years.old }
    {
        let n = self.n as usize;
        if !self.form.years {
            years[..n].fill(1);
            return;
        }
        let bytes = self.years();
        for (i, year) in years[..n].iter_mut().enumerate() {
            *year = u16::from_le_bytes([bytes[i * 2], bytes[i * 2 + 1]]);
        }
    }
}

// ---- the calls

// The refusal of the file into these arrays, before anything is written: 14 to 20, in 01's order.
pub fn check(arrays: &Lent<'_>, file: &[u8]) -> Result<(), Refusal>
    ensures { fault_of result ≡ read_refusal file.now (contents arrays.now) }
{
    header::check(file)?;
    if over_limits(file) {
        return Err(Refusal::TooLarge);
    }
    let index = index_in(file);
    let room = room::capacity(index, arrays);
    if room < index.n {
        return Err(Refusal::TooLarge);
    }
    file_in(file).check()
}

// The index that a file holds, into lent arrays. Refusals: 14 to 20.
pub fn from_bytes(arrays: &mut LentMut<'_>, file: &[u8]) -> Result<Index, Refusal>
    ensures same { SameLent arrays.old arrays.new }
    ensures answers { begun (verdict result) (contents_mut arrays.new)
        ≡ read_into (contents_mut arrays.old) file.now }
{
    check(&arrays.view(), file)?;
    let from = file_in(file);
    from.read_stage(arrays.codes, arrays.scales, from.first_stage(), from.n);
    read_marks(
        arrays.keys,
        arrays.keyed,
        arrays.held,
        arrays.alive,
        from.table(),
        from.entry_count(),
        from.n as usize,
    );
    from.read_stage(
        arrays.codes2,
        arrays.scales2,
        from.second_stage(),
        from.seconds(),
    );
    from.read_years(arrays.years);
    Ok(index_in(file))
}
