// A round that must come to its end (request 2.14): the bound on its calls, and that it can always go on. There is no code here.
#![tactic(auto)]
