// A vector before any rotation: its squares summed, the refusals that they call for, and its entries over a number.
#![tactic(auto)]

ghost use Rattle.std.specs.Prelude.{◌≡◌};
ghost use Rattle.pattern.specs.Binary32.{sum_squares};
ghost use Rattle.refusal.specs.Refusal.{fault_of};
ghost use Rattle.vectors.specs.Vectors.{sum_fault, vector_fault, divided};

use refusal::Refusal;

// The squares, summed in index order.
pub fn sum_squares(xs: &[f32]) -> f32
    ensures { result ≡ sum_squares xs.now }
{
    let mut sum = 0.0f32;
    for x in xs {
        sum = sum + *x * *x;
    }
    sum
}

// The refusal that a sum of squares calls for.
fn check_sum(sum: f32) -> Result<(), Refusal>
    ensures { fault_of result ≡ sum_fault sum }
{
    if sum.is_nan() {
        return Err(Refusal::ZeroOrNan);
    }
    if sum == 0.0 {
        return Err(Refusal::ZeroOrNan);
    }
    if sum.is_infinite() {
        return Err(Refusal::Infinite);
    }
    Ok(())
}

// The refusal of a vector or a query, for every call that takes one: 1, 2 or 3.
pub fn check(dim: usize, working_dim: usize, v: &[f32]) -> Result<(), Refusal>
    ensures { fault_of result ≡ vector_fault dim working_dim v.now }
{
    if v.len() != dim {
        return Err(Refusal::Length);
    }
    if working_dim < dim {
        return check_sum(sum_squares(&v[0..working_dim]));
    }
    check_sum(sum_squares(v))
}

// Each entry over the same number.
pub fn divide(xs: &mut [f32], by: f32)
    ensures { xs.new ≡ divided by xs.old }
{
    for x in xs.iter_mut() {
        *x = *x / by;
    }
}
