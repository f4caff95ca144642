// A seat with one seated guest answers as before (request 2.8): the rules for one guest at a seat, and that the calls give them. There is no code here.
#![tactic(auto)]
