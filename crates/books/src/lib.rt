// The theorem of demand 3: money, hands, bank, shoe and faces after every list of calls equal what the history works out. There is no code here.
#![tactic(auto)]
