// The padded dimension of vecq's rhdh.rs, the next power of two, and whether there are places for it.
#![tactic(auto)]

ghost use Rattle.std.specs.Prelude.{◌≡◌};
ghost use Rattle.padding.specs.Padded.{padded_dim};
ghost use Rattle.padding.specs.Rotatable.{rotatable};

// The least power of two at or above dim, and 0 where that is no usize.
#[tactic(auto, using(crate::proofs::Powers::padded_next))]
pub fn padded_dim(dim: usize) -> usize
    ensures { result ≡ padded_dim dim }
{
    dim.checked_next_power_of_two().unwrap_or(0)
}

// Whether a vector of so many entries can be rotated into so many places.
#[tactic(auto, unfolding(crate::specs::Rotatable::rotatable))]
pub fn is_rotatable(working_dim: usize, entries: usize, places: usize) -> bool
    ensures { result ≡ rotatable working_dim entries places }
{
    (1..=4096).contains(&working_dim) && working_dim <= entries && padded_dim(working_dim) <= places
}
