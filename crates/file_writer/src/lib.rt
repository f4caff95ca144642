// The writer of a session file (request 2.9): told each accepted call, it gives, block by block, the one file that a session has.
#![tactic(auto)]

mod blocks;
mod bytes;
pub mod codes;
pub mod writer;
