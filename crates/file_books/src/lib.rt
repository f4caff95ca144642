// A written session, read and played again, gives the same table and the same books (request 2.9). There is no code here.
#![tactic(auto)]
