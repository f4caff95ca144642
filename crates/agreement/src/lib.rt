// How a table agrees with a history. There is no code here: specs/ says when it does, proofs/ has the laws by which every call keeps it.
#![tactic(auto)]
