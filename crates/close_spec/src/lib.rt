// The definitions of close and void and their lemmas. There is no code here: it is in the crate `close`.
#![tactic(auto)]
