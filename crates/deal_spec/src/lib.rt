// The definition of deal and its lemmas. There is no code here: it is in the crate `deal`.
#![tactic(auto)]
