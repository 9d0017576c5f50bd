// What is written is read back: theorems on the byte form (specs/ and proofs/). There is no code.
#![tactic(auto)]
