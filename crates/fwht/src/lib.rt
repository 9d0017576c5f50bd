// The fast Walsh-Hadamard transform of vecq's rhdh.rs, in place.
#![tactic(auto)]

ghost use Rattle.std.specs.Prelude.{◌≡◌, ℕ, ◌+◌, ◌*◌, ◌^◌, ◌<◌, ◌≤◌, length, refl};
ghost use Rattle.padding.specs.Padded.{exponent};
ghost use Rattle.fwht.specs.InPlace.{Blocks};
ghost use Rattle.fwht.specs.Binary32.{fwht32, spans32, turned32, Spanned32};

// The passes at one, two or three spans, from h on, over one column of a block: the entries that lie h places apart, from j on, to their transform.
trait Turn {
    ghost spans: { ℕ };

    ghost PLACES: { ℕ };

    // How many entries a column has, 2^spans.
    const PLACES: usize;

    fn turn(v: &mut [f32], j: usize, h: usize)
        requires column { j < h }
        requires block { length v.old ≡ 2 ^ spans * h }
        ensures { v.new ≡ turned32 spans h j v.old };

    ghost places: { PLACES ≡ 2 ^ spans };
}

// A turn is its passes written out, one entry a line: loops over the passes and pairs of so few entries are no plainer. What the three share is `over_columns` and `over_blocks`.
struct Pair;

impl Turn for Pair {
    ghost spans = { 1 };

    ghost PLACES = { 2 };

    const PLACES: usize = 2;

    #[tactic(auto, unfolding(crate::specs::Fwht::entry, crate::specs::Fwht::pass, crate::specs::InPlace::turned))]
    fn turn(v: &mut [f32], j: usize, h: usize) {
        let k = j + h;
        let x = v[j];
        let y = v[k];
        v[j] = x + y;
        v[k] = x - y;
    }

    ghost places = { refl };
}

struct Quad;

impl Turn for Quad {
    ghost spans = { 2 };

    ghost PLACES = { 4 };

    const PLACES: usize = 4;

    #[tactic(auto, unfolding(crate::specs::Fwht::entry, crate::specs::Fwht::pass, crate::specs::InPlace::turned))]
    fn turn(v: &mut [f32], j: usize, h: usize) {
        let k = j + h;
        let l = k + h;
        let m = l + h;
        let x = v[j];
        let y = v[k];
        let z = v[l];
        let w = v[m];
        v[j] = (x + y) + (z + w);
        v[k] = (x - y) + (z - w);
        v[l] = (x + y) - (z + w);
        v[m] = (x - y) - (z - w);
    }

    ghost places = { refl };
}

struct Eight;

impl Turn for Eight {
    ghost spans = { 3 };

    ghost PLACES = { 8 };

    const PLACES: usize = 8;

    #[tactic(auto, unfolding(crate::specs::Fwht::entry, crate::specs::Fwht::pass, crate::specs::InPlace::turned))]
    fn turn(v: &mut [f32], j: usize, h: usize) {
        let j1 = j + h;
        let j2 = j1 + h;
        let j3 = j2 + h;
        let j4 = j3 + h;
        let j5 = j4 + h;
        let j6 = j5 + h;
        let j7 = j6 + h;
        let a0 = v[j];
        let a1 = v[j1];
        let a2 = v[j2];
        let a3 = v[j3];
        let a4 = v[j4];
        let a5 = v[j5];
        let a6 = v[j6];
        let a7 = v[j7];
        let b0 = a0 + a1;
        let b1 = a0 - a1;
        let b2 = a2 + a3;
        let b3 = a2 - a3;
        let b4 = a4 + a5;
        let b5 = a4 - a5;
        let b6 = a6 + a7;
        let b7 = a6 - a7;
        let c0 = b0 + b2;
        let c1 = b1 + b3;
        let c2 = b0 - b2;
        let c3 = b1 - b3;
        let c4 = b4 + b6;
        let c5 = b5 + b7;
        let c6 = b4 - b6;
        let c7 = b5 - b7;
        v[j] = c0 + c4;
        v[j1] = c1 + c5;
        v[j2] = c2 + c6;
        v[j3] = c3 + c7;
        v[j4] = c0 - c4;
        v[j5] = c1 - c5;
        v[j6] = c2 - c6;
        v[j7] = c3 - c7;
    }

    ghost places = { refl };
}

// The passes at a turn's spans over one block, column after column.
fn over_columns<T: Turn>(v: &mut [f32], h: usize)
    requires { length v.old ≡ 2 ^ T.spans * h }
    ensures { v.new ≡ spans32 h T.spans v.old }
{
    for j in 0..h {
        T::turn(v, j, h);
    }
}

// The passes at a turn's spans over all places, block after block.
// By the blocks' places: what `chunks_exact_mut` lends says nothing of the entries afterwards.
fn over_blocks<T: Turn>(v: &mut [f32], h: usize)
    requires whole { Blocks (2 ^ T.spans * h) (length v.old) }
    requires some { 2 ^ T.spans * h ≤ length v.old }
    ensures { v.new ≡ spans32 h T.spans v.old }
{
    let size = T::PLACES * h;
    for i in (0..v.len()).step_by(size) {
        over_columns::<T>(&mut v[i..i + size], h);
    }
}

// The passes at the first spans. The span where the others begin.
fn first_spans(v: &mut [f32]) -> usize
    requires { 2 ^ exponent (length v.old) ≡ length v.old }
    ensures { Spanned32 v.old v.new result }
{
    if 8 <= v.len() {
        over_blocks::<Eight>(v, 1);
        return 8;
    }
    1
}

// The fast Walsh-Hadamard transform in place, without scaling: two spans at a time, and the last one by itself where it is left over. A slice whose length is no power of two is left as it is.
pub fn fwht(v: &mut [f32])
    ensures { v.new ≡ fwht32 v.old }
{
    let n = v.len();
    if padding::padded_dim(n) != n {
        return;
    }
    // A while: h grows by factors of four.
    let mut h = first_spans(v);
    while h < n / 2 {
        over_blocks::<Quad>(v, h);
        h = 4 * h;
    }
    if h < n {
        over_blocks::<Pair>(v, h);
    }
}
