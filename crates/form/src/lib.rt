// The versions of the byte form: what each has, how long its blocks are, and which version an index is written as. No other crate compares these version numbers;
// the crate `conversion` tests for version 1, which is no longer read.
#![tactic(auto)]

ghost use Rattle.std.specs.Prelude.{◌≡◌};
ghost use Rattle.index.specs.State.{header_of};
ghost use Rattle.index.specs.Form.{form_of, stages_at, stage_size, table_size, years_size};
ghost use Rattle.index.specs.File.{version_with};

use index::{Form, Index};

// ---- versions

// What a version has.
#[tactic(auto, unfolding(index::specs::Form::form_of))]
pub fn form_of(version: u16) -> Form
    ensures { result ≡ form_of version }
{
    Form {
        known: (257..=264).contains(&version),
        width: version == 261 || version == 264,
        second: version == 260 || version == 263,
        keys: 259 <= version,
        working: 258 <= version,
        years: 262 <= version,
    }
}

// The version that an index is written as; `dated` says whether the year of some live slot is not 1.
pub fn version_with(index: Index, dated: bool) -> u16
    ensures { result ≡ version_with (header_of index) dated }
{
    let plain = match (index.residual, index.bits) {
        (true, _) => 260,
        (_, 4) => 259,
        _ => 261,
    };
    plain + 3 * u16::from(dated)
}

// ---- lengths. The types of the counts are narrow enough that no length can overflow.

// How long the head is: one byte more with a width byte.
pub fn stages_at(form: Form) -> usize
    ensures { result ≡ stages_at form }
{
    24 + usize::from(form.width)
}

// How many bytes the scales and the codes of one stage take: n slots, blocks of so many bytes.
pub fn stage_size(block: u16, n: u32) -> usize
    ensures { result ≡ stage_size block n }
{
    n as usize * 2 + n as usize * block as usize
}

// How many bytes a table of k key entries takes.
pub fn table_size(form: Form, k: u32) -> usize
    ensures { result ≡ table_size form k }
{
    if form.keys { 4 + k as usize * 12 } else { 0 }
}

// How many bytes the years of n slots take.
pub fn years_size(form: Form, n: u32) -> usize
    ensures { result ≡ years_size form n }
{
    if form.years { n as usize * 2 } else { 0 }
}
