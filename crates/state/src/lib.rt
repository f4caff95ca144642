// Parts of the table, read and replaced: the round, a seat, whose turn it is, what holds nothing, and the lengths of its arrays.
#![tactic(auto)]

pub mod empty;
pub mod round;
pub mod seat;
pub mod shape;
pub mod turn;
