// Insurance and the decisions that draw no card: insure, surrender, stand, even and five, each in a module of its own, and what the decisions share.
// Each call gives back what it moves or why it is refused, as its definition says (crate decisions_spec), for every table that is not broken.
#![tactic(auto)]

mod end;
pub mod even;
pub mod five;
pub mod insure;
pub mod progress;
pub mod stand;
pub mod surrender;
pub mod turn;
