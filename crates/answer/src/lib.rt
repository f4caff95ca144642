// What calls share: the conditions that several ask first, and what a call and a step give back.
#![tactic(auto)]

pub mod conditions;
pub mod moved;
pub mod outcome;
pub mod reply;
pub mod scores;
