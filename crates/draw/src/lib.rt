// The decisions that draw cards: draw, double and split, each in a module of its own, and what draw and double share.
// Each call gives back what it moves or why it is refused, as its definition says (crate decisions_spec), for every table that is not broken.
#![tactic(auto)]

mod card;
pub mod double;
pub mod draw;
pub mod split;
