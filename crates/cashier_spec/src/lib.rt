// No code: this crate has the definitions of the opening and of the calls between rounds (specs/), and the lemmas that an accepted one keeps a table good
// (proofs/). The crate cashier has their code.
#![tactic(auto)]
