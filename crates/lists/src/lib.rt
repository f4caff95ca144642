// Definitions and laws about lists that speak of no card, seat or money. There is no code here: specs/ and proofs/ are the crate.
#![tactic(auto)]
