// The session file of 512-byte blocks (request 2.9): what is wrong with any bytes, and the reader that hands out the calls of a checked file one after another.
#![tactic(auto)]

pub mod check;
pub mod reader;
