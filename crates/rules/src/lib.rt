// What the rules say of a hand in its seat against the up card: whether it waits, whose turn it is in the seat, and which decisions are permitted. Calls and
// history share these rules; none of them sees a purse, a shoe or the bank's hand.
#![tactic(auto)]

pub mod drew;
pub mod leaving;
pub mod open_calls;
pub mod permits;
pub mod seat_hand;
pub mod turn;
pub mod waits;
