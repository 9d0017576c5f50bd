// Running sums folded to one (store.rs, the scalar kernels).
#![tactic(auto)]

ghost use Rattle.std.specs.Prelude.{◌≡◌};
ghost use Rattle.score.specs.Lanes.{bracketed};

// Eight sums by the Rust's brackets: neighbours are added, and their four sums folded.
pub fn fold_eight(acc: [f32; 8]) -> f32
    ensures { result ≡ bracketed 3 acc }
{
    let s01 = acc[0] + acc[1];
    let s23 = acc[2] + acc[3];
    let s45 = acc[4] + acc[5];
    let s67 = acc[6] + acc[7];
    fold_four([s01, s23, s45, s67])
}

// Four sums by the Rust's brackets.
pub fn fold_four(acc: [f32; 4]) -> f32
    ensures { result ≡ bracketed 2 acc }
{
    (acc[0] + acc[1]) + (acc[2] + acc[3])
}
