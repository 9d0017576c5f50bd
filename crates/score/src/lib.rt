// What scores are and how they are ordered: the specification (specs/) and its laws (proofs/).
#![tactic(auto)]

// A score, or the number of the refusal: an enum of its own with the cases that document 01 names.
#[derive(Clone, Copy, Debug, PartialEq, Drop)]
pub enum Scored {
    Score(f32),
    Refused(u8),
}
