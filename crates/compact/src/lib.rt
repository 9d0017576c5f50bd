// Compaction: the live slots move down over the dead ones, in slot order, and held order rises again.
//
// Held order is written anew at the end, so until then its first places keep the numbers of the slots that stay: the call needs no list of its own.
#![tactic(auto)]

ghost use Rattle.std.specs.Prelude.{◌≡◌, true, false, cond, ◌/◌, ◌≤◌, length};
ghost use Rattle.lists.specs.Lists.{tab, over};
ghost use Rattle.marks.specs.Live.{marks_in, no_marks};
ghost use Rattle.index.specs.Arrays.{lent};
ghost use Rattle.index.specs.Lent.{contents_mut, SameLent};
ghost use Rattle.index.specs.Fit.{fit};
ghost use Rattle.index.specs.Verdict.{granted, verdict};
ghost use Rattle.index.specs.Step as Step;
ghost use Rattle.index.specs.Call.{call};
ghost use Rattle.index.specs.Answers.{made};
ghost use Rattle.held_order.specs.Restored.{rising_position};
ghost use Rattle.compact.specs.Gathered.{live_slots, gathered, gathered_blocks, Downward, with_kept};

use index::{Index, LentMut};
use refusal::Refusal;

// ---- which slots stay

// Writes the numbers of the live slots, in slot order, and returns how many there are. By index: it is what is written, and what `is_live` is asked of;
// past the end of `alive` a slot is dead.
fn live_slots(alive: &[u64], n: usize, slots: &mut [u32]) -> usize
    requires { (n ≤ length slots.old) × (n ≤ 65536) }
    ensures value { result ≡ length (live_slots (marks_in alive.now) n) }
    ensures slots_after { slots.new ≡ over (live_slots (marks_in alive.now) n) slots.old }
{
    let mut many = 0;
    for i in 0..n {
        if marks::is_live(alive, i) {
            slots[many] = i as u32;
            many += 1;
        }
    }
    many
}

// ---- entries and blocks move down

// `Downward` is a clause, here and below: it is of the length of the array that moves too, which differs from call to call, so a struct with it
// would be made anew for each.
fn gather<T: Copy>(xs: &mut [T], slots: &[u32], n: usize)
    requires { Downward slots.now n (length xs.old) }
    ensures { (d : _) → xs.new ≡ gathered slots.now n d xs.old }
{
    for (i, slot) in slots[..n].iter().enumerate() {
        xs[i] = xs[*slot as usize];
    }
}

fn gather_blocks(codes: &mut [u8], size: usize, slots: &[u32], n: usize)
    requires { Downward slots.now n (length codes.old / size) }
    ensures { codes.new ≡ gathered_blocks slots.now n size codes.old }
{
    for (i, slot) in slots[..n].iter().enumerate() {
        let from = *slot as usize * size;
        codes.copy_within(from..from + size, i * size);
    }
}

// The scales and the blocks of one stage.
fn gather_stage(codes: &mut [u8], scales: &mut [u32], size: usize, slots: &[u32], n: usize)
    requires { Downward slots.now n (length codes.old / size) × Downward slots.now n (length scales.old) }
    ensures codes_after { codes.new ≡ gathered_blocks slots.now n size codes.old }
    ensures scales_after { scales.new ≡ gathered slots.now n 0 scales.old }
{
    gather_blocks(codes, size, slots, n);
    gather(scales, slots, n);
}

// ---- keys and marks

// The keys of the slots that `held` lists move down, held order rises in their stead, and all slots that are kept are live.
fn gather_marks(keys: &mut [u64], keyed: &mut [bool], held: &mut [u32], alive: &mut [u64], n: usize)
    requires downward { Downward held.old n (length keys.old) × Downward held.old n (length keyed.old) }
    requires n_in_bounds { (n ≤ length (marks_in alive.old)) × (n ≤ 65536) }
    ensures keys_after { keys.new ≡ gathered held.old n 0 keys.old }
    ensures keyed_after { keyed.new ≡ gathered held.old n false keyed.old }
    ensures held_after { held.new ≡ over (tab (rising_position keys.new keyed.new) n) held.old }
    ensures alive_after { marks_in alive.new ≡ over (tab (λ _. 1) n) (no_marks (marks_in alive.old)) }
{
    gather(keys, held, n);
    gather(keyed, held, n);
    held_order::restore_order(keys, keyed, held, n);
    marks::mark_live(alive, n);
}

// ---- the call

// As many second stages as slots where the index is residual; else none.
fn second_stages(residual: bool, n: usize) -> usize
    ensures { result ≡ cond residual n 0 }
{
    if residual { n } else { 0 }
}

// The record once so many slots are kept: the cascade ends where a dead slot was met.
#[tactic(auto, unfolding(crate::specs::Gathered::with_kept))]
fn with_kept(index: Index, kept: usize) -> Index
    ensures { result ≡ with_kept index kept }
{
    Index {
        n: kept,
        live: kept,
        cascade: index.cascade && index.n <= kept,
        ..index
    }
}

// Gives the dead slots up of an index that fits. The arrays come one by one, since some are read while others change: the borrow check does not cover a call that
// is lent both kinds from behind one reference, as `live_slots(arrays.alive, n, arrays.held)`, nor one after `let LentMut { .. } = arrays`. Where all that a call is
// lent may change, as in crates read and place, it does.
fn close_up(
    index: Index,
    codes: &mut [u8],
    scales: &mut [u32],
    keys: &mut [u64],
    keyed: &mut [bool],
    held: &mut [u32],
    alive: &mut [u64],
    codes2: &mut [u8],
    scales2: &mut [u32],
    years: &mut [u16],
) -> Index
    requires { fit index (lent codes.old scales.old keys.old keyed.old held.old alive.old codes2.old scales2.old years.old) ≡ true }
    ensures { made index (granted result) (lent codes.new scales.new keys.new keyed.new held.new alive.new codes2.new scales2.new years.new)
        ≡ call index (lent codes.old scales.old keys.old keyed.old held.old alive.old codes2.old scales2.old years.old)
        Step.compact }
{
    let n = live_slots(alive, index.n, held);
    let size = room::block_size(index);
    gather_stage(codes, scales, size, held, n);
    gather_stage(
        codes2,
        scales2,
        size,
        held,
        second_stages(index.residual, n),
    );
    gather(years, held, n);
    gather_marks(keys, keyed, held, alive, n);
    with_kept(index, n)
}

// Gives the dead slots up. Refusal: 13.
pub fn compact(index: Index, arrays: &mut LentMut<'_>) -> Result<Index, Refusal>
    ensures same { SameLent arrays.old arrays.new }
    ensures answers { made index (verdict result) (contents_mut arrays.new)
        ≡ call index (contents_mut arrays.old) Step.compact }
{
    fit::check(index, &arrays.view())?;
    Ok(close_up(
        index,
        arrays.codes,
        arrays.scales,
        arrays.keys,
        arrays.keyed,
        arrays.held,
        arrays.alive,
        arrays.codes2,
        arrays.scales2,
        arrays.years,
    ))
}
