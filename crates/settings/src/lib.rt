// The calls that set something of a made index: its code width, its cascade. Neither writes a lent array.
#![tactic(auto)]

ghost use Rattle.std.specs.Prelude.{◌≡◌};
ghost use Rattle.index.specs.Lent.{contents};
ghost use Rattle.index.specs.Step.{set_bits, enable};
ghost use Rattle.index.specs.Call.{call};
ghost use Rattle.index.specs.Verdict.{verdict};
ghost use Rattle.index.specs.Answers.{made};

use index::{Index, Lent};
use refusal::Refusal;

// Sets the width of an index of no slots: 13, 5, 6, 7. The cascade ends.
pub fn set_bits(index: Index, arrays: &Lent<'_>, bits: u8) -> Result<Index, Refusal>
    ensures { let a = contents arrays.now in made index (verdict result) a ≡ call index a (set_bits bits) }
{
    fit::check(index, arrays)?;
    if !(4..=6).contains(&bits) {
        return Err(Refusal::Width);
    }
    if 0 < index.n {
        return Err(Refusal::SlotsInUse);
    }
    if index.residual & (bits != 4) {
        return Err(Refusal::ResidualWidth);
    }
    Ok(Index {
        bits,
        cascade: false,
        ..index
    })
}

// Lets the index answer cascade searches: 13, 11.
pub fn enable_cascade(index: Index, arrays: &Lent<'_>) -> Result<Index, Refusal>
    ensures { let a = contents arrays.now in made index (verdict result) a ≡ call index a enable }
{
    fit::check(index, arrays)?;
    if index.bits != 4 {
        return Err(Refusal::NoCascade);
    }
    Ok(Index {
        cascade: true,
        ..index
    })
}
