// One slot written: what the three adding calls have in common.
#![tactic(auto)]

ghost use Rattle.std.specs.Prelude.{◌≡◌, ◌≤◌, ◌<◌};
ghost use Rattle.lloyd.specs.Tables.{levels_of};
ghost use Rattle.encode.specs.Calls.{stages, encoded_into};
ghost use Rattle.refusal.specs.Refusal.{fault_of};
ghost use Rattle.index.specs.Lent.{contents, contents_mut, SameLent};
ghost use Rattle.index.specs.State.{header_of};
ghost use Rattle.index.specs.Codec.{table_of};
ghost use Rattle.index.specs.Step.{item_of};
ghost use Rattle.index.specs.Call.{call};
ghost use Rattle.index.specs.Verdict.{verdict};
ghost use Rattle.index.specs.Answers.{added};
ghost use Rattle.place.specs.Place.{Codable, Markable, put_code, put_mark, after_add, refusal};
ghost use Rattle.place.specs.Adding.{op_of, spot_of, mark_of_spot, barred};

use encode::{Header, Scales};
use index::{Added, Index, Lent, LentMut};
use refusal::Refusal;

// ---- which slot

// How a vector is added: as a slot without a key; over the first held slot of a key, or as its first one, by the present year; as one more slot of a key.
#[derive(Clone, Copy)]
pub enum Adding {
    Unkeyed,
    Keyed(u64, u16),
    Multi(u64),
}

// A slot to be written, with its key and its position among the key's slots in held order.
#[derive(Clone, Copy)]
struct Spot {
    slot: usize,
    key: Option<(u64, usize)>,
}

// The slot to be written, n being the one behind those in use.
fn spot_of(adding: Adding, arrays: &Lent<'_>, n: usize) -> Spot
    ensures { result ≡ spot_of adding (contents arrays.now) n }
{
    match adding {
        Adding::Unkeyed => Spot { slot: n, key: None },
        Adding::Keyed(key, _) => Spot {
            slot: held::held_slot(arrays.keys, arrays.keyed, arrays.held, n, key, 0),
            key: Some((key, 0)),
        },
        Adding::Multi(key) => Spot {
            slot: n,
            key: Some((key, held::held_count(arrays.keys, arrays.keyed, n, key))),
        },
    }
}

// Whether the slot is one in use, which must stay as it is: an overwrite alone writes one.
fn is_barred(adding: Adding, years: &[u16], n: usize, slot: usize) -> bool
    ensures { result ≡ barred adding years.now n slot }
{
    match adding {
        Adding::Keyed(_, present) => slot < n && retention::must_stay(years, slot, present),
        Adding::Unkeyed | Adding::Multi(_) => false,
    }
}

// ---- one slot's places

// What fixes how a vector is coded. A function here and no `From` in crate index: it forgets the counts of the record, and adding is its one user.
fn header_of(index: Index) -> Header
    ensures { result ≡ header_of index }
{
    Header {
        dim: index.dim,
        working_dim: index.working_dim,
        seed: index.seed,
        bits: index.bits,
        residual: index.residual,
    }
}

// A vector coded by the tables of the width, into a slot's blocks.
fn encode_by_width(
    index: Index,
    fresh: bool,
    v: &[f32],
    block: &mut [u8],
    block2: &mut [u8],
) -> Scales
    requires { 0 < levels_of index.bits }
    ensures { let h = header_of index in
        stages result block.new block2.new ≡ encoded_into (table_of h) h fresh (item_of v.now) block.old block2.old }
{
    let n = lloyd::levels(index.bits);
    let boundaries = lloyd::boundaries(index.bits);
    let centroids = lloyd::centroids(index.bits);
    encode::encode(
        header_of(index),
        fresh,
        &boundaries[0..n - 1],
        &centroids[0..n],
        v,
        block,
        block2,
    )
}

// The code of a vector into the places of a slot: `fresh` for an appended slot, else over what stands there.
fn put_code(index: Index, fresh: bool, slot: usize, v: &[f32], arrays: &mut LentMut<'_>)
    requires { Codable (header_of index) (contents_mut arrays.old) slot (item_of v.now) }
    ensures same { SameLent arrays.old arrays.new }
    ensures code { contents_mut arrays.new
        ≡ put_code (header_of index) (contents_mut arrays.old) fresh slot (item_of v.now) }
{
    let size = room::block_size(index);
    let from = slot * size;
    let to = from + size;
    if index.residual {
        let s = encode_by_width(
            index,
            fresh,
            v,
            &mut arrays.codes[from..to],
            &mut arrays.codes2[from..to],
        );
        arrays.scales[slot] = s.scale;
        arrays.scales2[slot] = s.scale2;
    } else {
        let s = encode_by_width(index, fresh, v, &mut arrays.codes[from..to], &mut []);
        arrays.scales[slot] = s.scale;
    }
}

// The mark and the year of a live slot into their places. A slot that is overwritten has its mark already.
fn put_mark(spot: Spot, year: u16, arrays: &mut LentMut<'_>)
    requires { Markable (contents_mut arrays.old) spot.slot (mark_of_spot spot) }
    ensures same { SameLent arrays.old arrays.new }
    ensures mark { contents_mut arrays.new ≡ put_mark (contents_mut arrays.old) spot.slot (mark_of_spot spot) year }
{
    let slot = spot.slot;
    let (key, position) = spot.key.unwrap_or((0, 0));
    arrays.keys[slot] = key;
    arrays.keyed[slot] = spot.key.is_some();
    arrays.held[slot] = position as u32;
    marks::set_live_mark(arrays.alive, slot, true);
    arrays.years[slot] = year;
}

// ---- the call

// The record after an accepted add.
fn after_add(index: Index, fresh: bool) -> Index
    requires { (index.n ≤ 65536) × (index.live ≤ 65536) }
    ensures { result ≡ after_add index fresh }
{
    let more = fresh as usize;
    Index {
        n: index.n + more,
        live: index.live + more,
        cascade: false,
        ..index
    }
}

// The refusal of an add into a slot.
fn check(
    index: Index,
    arrays: &Lent<'_>,
    adding: Adding,
    slot: usize,
    v: &[f32],
) -> Result<(), Refusal>
    ensures { fault_of result ≡ refusal index (contents arrays.now) adding slot (item_of v.now) }
{
    fit::check(index, arrays)?;
    vectors::check(index.dim, index.working_dim, v)?;
    if room::capacity(index, arrays) <= slot {
        return Err(Refusal::Full);
    }
    if is_barred(adding, arrays.years, index.n, slot) {
        return Err(Refusal::MustStay);
    }
    Ok(())
}

// Adds a vector: the part that the three adding calls share. The scan for the key comes before the test of the arrays, and ends with them.
pub fn put(
    index: Index,
    arrays: &mut LentMut<'_>,
    adding: Adding,
    v: &[f32],
    year: u16,
) -> Result<Added, Refusal>
    ensures same { SameLent arrays.old arrays.new }
    ensures answers { added index (verdict result) (contents_mut arrays.new)
        ≡ call index (contents_mut arrays.old) (op_of adding (item_of v.now) year) }
{
    let view = arrays.view();
    let spot = spot_of(adding, &view, index.n);
    check(index, &view, adding, spot.slot, v)?;
    let fresh = spot.slot == index.n;
    put_code(index, fresh, spot.slot, v, arrays);
    put_mark(spot, year, arrays);
    Ok(Added {
        slot: spot.slot,
        index: after_add(index, fresh),
    })
}
