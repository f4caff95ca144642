// One block of a session file (request 2.9): the check, a table block and a call block. For crates above, which hand over blocks of 512 bytes.
#![tactic(auto)]

pub mod block;
pub mod call_block;
pub mod table_block;
