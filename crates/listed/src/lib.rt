// What is listed of a file: the text (specs/Listing.antt), and what a program that prints it rests on (specs/Whole.antt, proved in proofs/). There is no code.
#![tactic(auto)]
