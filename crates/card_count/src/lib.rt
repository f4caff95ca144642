// Cards counted by face (document 01, numbers 1 and 3): whether an order is valid, and whether the cards on a table are those of its order.
#![tactic(auto)]

pub mod conserved;
pub mod counters;
pub mod out_cards;
pub mod valid_order;
