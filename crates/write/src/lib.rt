// Writing: the byte form of an index, block after block, into a lent file. One pass over the slots in use for each block.
#![tactic(auto)]

ghost use Rattle.std.specs.Prelude.{◌≡◌, cond, [], ◌++◌, ◌+◌, ◌≤◌, eqb, length, get_or};
ghost use Rattle.encode.specs.Header.{block_size};
ghost use Rattle.index.specs.Lent.{contents};
ghost use Rattle.index.specs.Verdict.{verdict};
ghost use Rattle.index.specs.State.{header_of};
ghost use Rattle.index.specs.File.{le_bytes, width_byte, head_bytes};
ghost use Rattle.index.specs.Step as Step;
ghost use Rattle.index.specs.Call.{call};
ghost use Rattle.index.specs.Answers.{result_of, how_many, wrote, LaterKept};
ghost use Rattle.marks.specs.Live.{marks_in};
ghost use Rattle.layout.specs.Counts.{entry_at, counts_of};
ghost use Rattle.write.specs.Put.{Room, Put};
ghost use Rattle.write.specs.Pieces.{in_order, scale_piece, code_piece, key_piece, year_piece, stage_pieces, second_pieces, year_pieces, file_pieces};

use index::{Index, Lent};
use layout::Counts;
use refusal::Refusal;

// A lent file, and the place from which the next bytes are written.
#[derive(Drop)]
struct Writer<'a> {
    file: &'a mut [u8],
    at: usize,
}

impl Writer<'_> {
    // ---- bytes

    // A copy of other bytes. By a loop: with `copy_from_slice` the library for C would need memmove from outside.
    fn put_bytes(&mut self, bytes: &[u8])
        requires { Room bytes.now self.old }
        ensures { Put bytes.now self.old self.new }
    {
        let next = self.at + bytes.len();
        for (i, place) in self.file[self.at..next].iter_mut().enumerate() {
            *place = bytes[i];
        }
        self.at = next;
    }

    // A number in `size` bytes, the lowest first.
    fn put_number(&mut self, size: usize, value: u64)
        requires few { size ≤ 8 }
        requires room { Room (le_bytes size value) self.old }
        ensures { Put (le_bytes size value) self.old self.new }
    {
        self.put_bytes(&value.to_le_bytes()[..size]);
    }

    // ---- what is written of one slot: nothing of a dead one

    // The scale as a half; a scale past the end counts as 0.
    fn put_scale(&mut self, scales: &[u32], alive: &[u64], slot: usize)
        requires { Room (scale_piece scales.now (marks_in alive.now) slot) self.old }
        ensures { Put (scale_piece scales.now (marks_in alive.now) slot) self.old self.new }
    {
        if !marks::is_live(alive, slot) {
            return;
        }
        let pattern = scales.get(slot).copied().unwrap_or(0);
        let scale = half::f32_to_f16_bits(pattern);
        self.put_number(2, scale as u64);
    }

    // The codes.
    fn put_block(&mut self, codes: &[u8], alive: &[u64], block: usize, slot: usize)
        requires { Room (code_piece codes.now (marks_in alive.now) block slot) self.old }
        ensures { Put (code_piece codes.now (marks_in alive.now) block slot) self.old self.new }
    {
        if !marks::is_live(alive, slot) {
            return;
        }
        self.put_bytes(codes::slot_codes(codes, slot, block));
    }

    // The key entry, under the slot's number among the live ones.
    fn put_entry(&mut self, arrays: &Lent<'_>, slot: usize, number: usize)
        requires { let a = contents arrays.now in
            Room (cond (entry_at a.keyed a.alive slot) (le_bytes 4 number ++ le_bytes 8 (get_or a.keys slot 0)) []) self.old }
        ensures { let a = contents arrays.now in
            Put (cond (entry_at a.keyed a.alive slot) (le_bytes 4 number ++ le_bytes 8 (get_or a.keys slot 0)) []) self.old self.new }
    {
        if !layout::has_entry(arrays.keyed, arrays.alive, slot) {
            return;
        }
        self.put_number(4, number as u64);
        self.put_number(8, slot_keys::key_word(arrays.keys, slot));
    }

    // The year; one past the end counts as 0.
    fn put_year(&mut self, years: &[u16], alive: &[u64], slot: usize)
        requires { Room (year_piece years.now (marks_in alive.now) slot) self.old }
        ensures { Put (year_piece years.now (marks_in alive.now) slot) self.old self.new }
    {
        if !marks::is_live(alive, slot) {
            return;
        }
        let year = years.get(slot).copied().unwrap_or(0);
        self.put_number(2, year as u64);
    }

    // ---- the blocks. A loop each: a trait for what is written of a slot would be longer than the four loops, of which that over the
    // key entries keeps a number besides. By slot: `alive` and what is written out are both read at it, and either may
    // be shorter than n.

    fn put_scales(&mut self, scales: &[u32], alive: &[u64], n: usize)
        requires { Room (in_order (scale_piece scales.now (marks_in alive.now)) n) self.old }
        ensures { Put (in_order (scale_piece scales.now (marks_in alive.now)) n) self.old self.new }
    {
        for i in 0..n {
            self.put_scale(scales, alive, i);
        }
    }

    fn put_codes(&mut self, codes: &[u8], alive: &[u64], block: usize, n: usize)
        requires { Room (in_order (code_piece codes.now (marks_in alive.now) block) n) self.old }
        ensures { Put (in_order (code_piece codes.now (marks_in alive.now) block) n) self.old self.new }
    {
        for i in 0..n {
            self.put_block(codes, alive, block, i);
        }
    }

    // The scales and the codes of one stage.
    fn put_stage(&mut self, codes: &[u8], scales: &[u32], alive: &[u64], block: usize, n: usize)
        requires { Room (stage_pieces codes.now scales.now (marks_in alive.now) block n) self.old }
        ensures { Put (stage_pieces codes.now scales.now (marks_in alive.now) block n) self.old self.new }
    {
        self.put_scales(scales, alive, n);
        self.put_codes(codes, alive, block, n);
    }

    // The second stage, where the index is residual.
    fn put_second(&mut self, residual: bool, arrays: &Lent<'_>, block: usize, n: usize)
        requires { let a = contents arrays.now in Room (second_pieces residual a.codes2 a.scales2 a.alive block n) self.old }
        ensures { let a = contents arrays.now in Put (second_pieces residual a.codes2 a.scales2 a.alive block n) self.old self.new }
    {
        if !residual {
            return;
        }
        self.put_stage(arrays.codes2, arrays.scales2, arrays.alive, block, n);
    }

    // The key entries.
    fn put_entries(&mut self, arrays: &Lent<'_>, n: usize)
        requires { let a = contents arrays.now in Room (in_order (key_piece a.keys a.keyed a.alive) n) self.old }
        ensures { let a = contents arrays.now in Put (in_order (key_piece a.keys a.keyed a.alive) n) self.old self.new }
    {
        let mut number = 0;
        for i in 0..n {
            self.put_entry(arrays, i, number);
            number += marks::is_live(arrays.alive, i) as usize;
        }
    }

    // The years, where the version has them.
    fn put_years(&mut self, version: u16, years: &[u16], alive: &[u64], n: usize)
        requires { Room (year_pieces version years.now (marks_in alive.now) n) self.old }
        ensures { Put (year_pieces version years.now (marks_in alive.now) n) self.old self.new }
    {
        if !form::form_of(version).years {
            return;
        }
        for i in 0..n {
            self.put_year(years, alive, i);
        }
    }

    // ---- the file

    // The first 24 bytes: VECQ, version, working_dim (0 if it equals dim), dim, seed, live count.
    fn put_head(&mut self, version: u16, index: Index, live: usize)
        requires { Room (head_bytes version (header_of index) live) self.old }
        ensures { Put (head_bytes version (header_of index) live) self.old self.new }
    {
        let working = if index.working_dim == index.dim {
            0
        } else {
            index.working_dim
        };
        self.put_number(4, 0x5143_4556);
        self.put_number(2, version as u64);
        self.put_number(2, working as u64);
        self.put_number(4, index.dim as u64);
        self.put_number(8, index.seed);
        self.put_number(4, live as u64);
    }

    // The width byte, where the version has one.
    fn put_width(&mut self, version: u16, index: Index)
        requires { Room (width_byte version (header_of index)) self.old }
        ensures { Put (width_byte version (header_of index)) self.old self.new }
    {
        if !form::form_of(version).width {
            return;
        }
        self.put_bytes(&[index.bits]);
    }

    // The whole file in this version, a block of codes being so many bytes.
    fn put_file(
        &mut self,
        version: u16,
        index: Index,
        counts: Counts,
        block: usize,
        arrays: &Lent<'_>,
    )
        requires counted { let a = contents arrays.now in counts ≡ counts_of a.keyed a.years a.alive index.n }
        requires block_is_size { block ≡ block_size (header_of index) }
        requires pieces_fit { Room (file_pieces version (header_of index) (contents arrays.now) index.n) self.old }
        ensures { Put (file_pieces version (header_of index) (contents arrays.now) index.n) self.old self.new }
    {
        let n = index.n;
        self.put_head(version, index, counts.live);
        self.put_width(version, index);
        self.put_stage(arrays.codes, arrays.scales, arrays.alive, block, n);
        self.put_second(index.residual, arrays, block, n);
        self.put_number(4, counts.keyed as u64);
        self.put_entries(arrays, n);
        self.put_years(version, arrays.years, arrays.alive, n);
    }
}

// Writes the file of the index over the first places of the lent one. Refusal: 13, a file too short for it among its cases.
pub fn to_bytes(index: Index, arrays: &Lent<'_>, file: &mut [u8]) -> Result<usize, Refusal>
    ensures answers { let a = contents arrays.now in
        result_of index a (wrote (verdict result) file.new) ≡ call index a (Step.write (length file.old)) }
    ensures later_kept { LaterKept (how_many (verdict result)) file.old file.new }
{
    let length = layout::file_length(index, arrays)?;
    if file.len() < length {
        return Err(Refusal::Misfit);
    }
    let counts = layout::count_slots(arrays.keyed, arrays.years, arrays.alive, index.n);
    let version = form::version_with(index, counts.dated > 0);
    let mut out = Writer { file, at: 0 };
    out.put_file(version, index, counts, room::block_size(index), arrays);
    Ok(length)
}
