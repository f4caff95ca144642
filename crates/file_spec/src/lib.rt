// The session file of 512-byte blocks (request 2.9), as definitions over lists of bytes, and its theorems. There is no code here.
#![tactic(auto)]
