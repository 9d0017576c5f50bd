// The theorem on histories (specs/Histories.antt) and that on two houses (specs/Houses.antt): specs/ states them, proofs/ proves them. There is no code.
#![tactic(auto)]
