// A number's digits to a base: definitions and laws only (specs/ and proofs/), no code.
#![tactic(auto)]
