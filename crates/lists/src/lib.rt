// General definitions and laws on lists: specs/ and proofs/. There is no code.
#![tactic(auto)]
