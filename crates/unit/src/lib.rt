// A vector over its norm and rotated, and a query prepared: what comes before the codes in `encode_into` and `prepare_query` of vecq's store.rs.
#![tactic(auto)]

ghost use Rattle.std.specs.Prelude.{◌≡◌, true, length};
ghost use Rattle.padding.specs.Padded.{padded_dim};
ghost use Rattle.rhdh.specs.Rotation.{applied};
ghost use Rattle.unit.specs.Unit.{norm, unit, rotated_by, rnorm, prepared};
ghost use Rattle.padding.specs.Rotatable.{rotatable};
ghost use Rattle.unit.specs.Calls.{rotated_into, query, prepared_into};

// The entries over their norm, which is the result.
#[tactic(auto, unfolding(crate::specs::Unit::norm, crate::specs::Unit::unit))]
fn normalize(xs: &mut [f32]) -> f32
    ensures norm { result ≡ norm xs.old }
    ensures unit { xs.new ≡ unit xs.old }
{
    let norm = sqrt::sqrt(vectors::sum_squares(xs));
    vectors::divide(xs, norm);
    norm
}

// The working entries v, over their norm, padded and rotated.
fn rotate_entries(v: &[f32], seed: u64, work: &mut [f32], out: &mut [f32])
    requires { length work.old ≡ length v.now }
    ensures { out.new ≡ applied (padded_dim (length v.now)) seed (unit v.now) out.old }
{
    work.copy_from_slice(v);
    normalize(work);
    rhdh::Rhdh::new(v.len(), seed).apply(work, out);
}

// The first working_dim entries of v, over their norm, padded and rotated, in the first places of out.
#[tactic(auto, using(crate::proofs::Vectors::rotated_is, crate::proofs::Vectors::not_rotated), unfolding(padding::specs::Rotatable::rotatable))]
pub fn rotate(working_dim: usize, seed: u64, v: &[f32], out: &mut [f32])
    ensures { out.new ≡ rotated_into working_dim seed v.now out.old }
{
    if padding::is_rotatable(working_dim, v.len(), out.len()) {
        let mut work = [0.0; 4096];
        rotate_entries(&v[..working_dim], seed, &mut work[..working_dim], out);
    }
}

// A prepared query in the whole of out.
fn prepare_whole(working_dim: usize, seed: u64, q: &[f32], out: &mut [f32]) -> f32
    requires is_rotatable { rotatable working_dim (length q.now) (length out.old) ≡ true }
    requires out_length { length out.old ≡ padded_dim working_dim }
    ensures rnorm { result ≡ rnorm (rotated_by working_dim seed q.now) }
    ensures prepared { out.new ≡ prepared (rotated_by working_dim seed q.now) }
{
    rotate(working_dim, seed, q, out);
    normalize(out)
}

// A query, rotated and divided by the norm of its rotated entries, in the first places of out. The result is that norm.
#[tactic(auto, using(crate::proofs::Vectors::prepared_is, crate::proofs::Vectors::not_prepared, crate::proofs::Vectors::places_fit, crate::proofs::Vectors::places_all, crate::proofs::Vectors::places_rotatable))]
pub fn prepare(working_dim: usize, seed: u64, q: &[f32], out: &mut [f32]) -> f32
    ensures { query result out.new ≡ prepared_into working_dim seed q.now out.old }
{
    if !padding::is_rotatable(working_dim, q.len(), out.len()) {
        return 0.0;
    }
    let padded = padding::padded_dim(working_dim);
    prepare_whole(working_dim, seed, q, &mut out[..padded])
}
