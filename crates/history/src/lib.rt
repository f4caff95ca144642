// What document 01's section "The history" works out from options, loaded orders and accepted calls alone. There is no code here.
#![tactic(auto)]
