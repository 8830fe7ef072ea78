// Instances of the statements, with every hypothesis met and literal samples or numbers: no code. specs/ has them,
// proofs/ has each from the theorem that it is an instance of, so that a weaker statement does not prove it.
#![tactic(auto)]
