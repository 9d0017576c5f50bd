// What is read of a converted file: theorems on the converter (specs/ and proofs/). There is no code.
#![tactic(auto)]
