// What calls that change the marks of slots leave in the record and the arrays: definitions (specs/) and laws (proofs/). There is no code.
#![tactic(auto)]
