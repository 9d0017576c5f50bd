// The examples that document 01 works by hand and marks M: specs/Rows.antt.
#![tactic(auto)]
