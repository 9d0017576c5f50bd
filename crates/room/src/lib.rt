// How many bytes a slot has of each stage, and how many slots the lent arrays hold.
#![tactic(auto)]

ghost use Rattle.std.specs.Prelude.{◌≡◌};
ghost use Rattle.codes.specs.Writing.{at_width};
ghost use Rattle.encode.specs.Header.{block_size};
ghost use Rattle.index.specs.Lent.{contents};
ghost use Rattle.index.specs.State as State;

use index::{Index, Lent};

// How many bytes a slot has of each stage.
pub fn block_size(index: Index) -> usize
    ensures { result ≡ at_width index.bits (block_size (State.header_of index)) }
{
    codes::bytes_per_vector(padding::padded_dim(index.working_dim), index.bits)
}

// The fewest slots that any lent array of the index holds, at most 65,536; 0 at a width that no code has.
pub fn capacity(index: Index, arrays: &Lent<'_>) -> usize
    ensures { result ≡ at_width index.bits (State.capacity (State.header_of index) (contents arrays.now)) }
{
    let bytes = block_size(index);
    if bytes == 0 {
        return 0;
    }
    let first = 65536usize
        .min(arrays.codes.len() / bytes)
        .min(arrays.scales.len());
    let marks = first
        .min(arrays.keys.len())
        .min(arrays.keyed.len())
        .min(arrays.held.len())
        .min(marks::places(arrays.alive))
        .min(arrays.years.len());
    if index.residual {
        return marks
            .min(arrays.codes2.len() / bytes)
            .min(arrays.scales2.len());
    }
    marks
}
