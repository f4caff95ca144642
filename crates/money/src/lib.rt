// Money of a table in code: what a seat has laid and won, the sums over all seats in one pass, and the test of 10^15. Every table value is taken.
#![tactic(auto)]

pub mod most_money;
pub mod seat_money;
pub mod sums;
