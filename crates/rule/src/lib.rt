// The sample rule of document 01 and what follows of it over lists of calls: definitions, theorems, no code.
// specs/ says what a voice does and what is promised of it; proofs/ shows it.
#![tactic(auto)]
