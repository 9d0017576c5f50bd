// Definitions and laws of the choice of slots: specs/ and proofs/. There is no code.
#![tactic(auto)]
