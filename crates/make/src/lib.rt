// Making an index. An accepted call marks every slot as dead, and writes no other lent array.
#![tactic(auto)]

ghost use Rattle.std.specs.Prelude.{◌≡◌, true, false, cond};
ghost use Rattle.refusal.specs.Refusal.{fault_of};
ghost use Rattle.index.specs.Lent.{contents, contents_mut, SameLent};
ghost use Rattle.index.specs.Verdict.{verdict};
ghost use Rattle.index.specs.State as State;
ghost use Rattle.index.specs.Make as Make;

use index::{Index, Lent, LentMut};
use refusal::Refusal;

// The width that an index is made with.
fn default_bits(residual: bool) -> u8
    ensures { result ≡ cond residual 4 5 }
{
    if residual { 4 } else { 5 }
}

// The record of an index just made.
fn fresh(dim: usize, working_dim: usize, seed: u64, residual: bool) -> Index
    ensures { result ≡ State.record_of (Make.empty (Make.new_header dim working_dim seed residual)) }
{
    Index {
        dim,
        working_dim,
        seed,
        bits: default_bits(residual),
        residual,
        n: 0,
        live: 0,
        cascade: false,
    }
}

// The refusal of making, before anything is written: 4, then 13 where a lent array holds no slot.
pub fn check(
    dim: usize,
    working_dim: usize,
    seed: u64,
    residual: bool,
    arrays: &Lent<'_>,
) -> Result<(), Refusal>
    ensures { fault_of result ≡ Make.make_refusal (Make.new_header dim working_dim seed residual) (contents arrays.now) }
{
    if !((1..=4096).contains(&dim) & (1..=dim).contains(&working_dim)) {
        return Err(Refusal::Dims);
    }
    let index = fresh(dim, working_dim, seed, residual);
    if room::capacity(index, arrays) == 0 {
        return Err(Refusal::Misfit);
    }
    Ok(())
}

// What the three making calls do.
fn make(
    dim: usize,
    working_dim: usize,
    seed: u64,
    residual: bool,
    arrays: &mut LentMut<'_>,
) -> Result<Index, Refusal>
    ensures same { SameLent arrays.old arrays.new }
    ensures answers { Make.begun (verdict result) (contents_mut arrays.new)
        ≡ Make.make (Make.new_header dim working_dim seed residual) (contents_mut arrays.old) }
{
    check(dim, working_dim, seed, residual, &arrays.view())?;
    marks::mark_live(arrays.alive, 0);
    Ok(fresh(dim, working_dim, seed, residual))
}

// An index of vectors of dim entries, at 5 bits.
pub fn new(dim: usize, seed: u64, arrays: &mut LentMut<'_>) -> Result<Index, Refusal>
    ensures same { SameLent arrays.old arrays.new }
    ensures answers { Make.begun (verdict result) (contents_mut arrays.new)
        ≡ Make.make (Make.new_header dim dim seed false) (contents_mut arrays.old) }
{
    make(dim, dim, seed, false, arrays)
}

// The same, of which the first working_dim entries alone are encoded.
pub fn with_working_dim(
    dim: usize,
    working_dim: usize,
    seed: u64,
    arrays: &mut LentMut<'_>,
) -> Result<Index, Refusal>
    ensures same { SameLent arrays.old arrays.new }
    ensures answers { Make.begun (verdict result) (contents_mut arrays.new)
        ≡ Make.make (Make.new_header dim working_dim seed false) (contents_mut arrays.old) }
{
    make(dim, working_dim, seed, false, arrays)
}

// An index that keeps second codes too, of what the first leave over, both at 4 bits.
pub fn with_residual(dim: usize, seed: u64, arrays: &mut LentMut<'_>) -> Result<Index, Refusal>
    ensures same { SameLent arrays.old arrays.new }
    ensures answers { Make.begun (verdict result) (contents_mut arrays.new)
        ≡ Make.make (Make.new_header dim dim seed true) (contents_mut arrays.old) }
{
    make(dim, dim, seed, true, arrays)
}
