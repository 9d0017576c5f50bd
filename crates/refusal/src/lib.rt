// Why a call is turned down, by the numbers of document 01. There is no 10: no call gives it (02, Req 05).
#![tactic(auto)]

ghost use Rattle.std.specs.Prelude.{◌≡◌};
ghost use Rattle.refusal.specs.Refusal.{number_of};

#[derive(Clone, Copy, Debug, PartialEq, Eq)]
pub enum Refusal {
    // The vector's length is not dim.
    Length = 1,
    // Its sum of squares is zero or NaN.
    ZeroOrNan = 2,
    // Its sum of squares is infinite.
    Infinite = 3,
    // `dim` is outside 1..4,096, or `working_dim` outside 1..dim.
    Dims = 4,
    // The width is not 4, 5 or 6.
    Width = 5,
    // The width is set while slots are in use.
    SlotsInUse = 6,
    // A residual index of width 5 or 6.
    ResidualWidth = 7,
    // An append with as many slots in use as there is room for.
    Full = 8,
    // A slot to score at or past those in use.
    NoSlot = 9,
    // A cascade at width 5 or 6, or not enabled.
    NoCascade = 11,
    // A score to be ranked or returned is NaN.
    ScoreNan = 12,
    // Record and lent arrays misfit, the places for a result or a file are too few, or, in making, a lent array holds no slot.
    Misfit = 13,
    // The file ends early.
    EndsEarly = 14,
    // Its first bytes are not VECQ.
    NotVecq = 15,
    // Its version is unknown.
    Version = 16,
    // Its working_dim is over dim, or dim is 0.
    FileDims = 17,
    // Its width byte is not 4, 5 or 6.
    FileWidth = 18,
    // A key entry past the count, or a slot twice.
    KeyEntry = 19,
    // Its dim is over 4,096, or its count over 65,536 or over the lent arrays.
    TooLarge = 20,
    // A slot that would be taken or written is to be kept: its year is 0, or above 1 and past the present one (02, Req 06).
    MustStay = 21,
}

// The number that the paper gives it.
impl From<Refusal> for u8 {
    ghost from_gives = { λ r n. n ≡ number_of r };

    fn from(r: Refusal) -> u8 {
        r as u8
    }
}
