// How the bank stands and what a hand, an insurance, a side stake and a prize pay (document 01, "Payment"), and the cover that the tray must hold for it.
#![tactic(auto)]

pub mod bank;
pub mod cover;
pub mod hand_pay;
pub mod insurance;
pub mod pay;
pub mod prize;
pub mod side_pay;
pub mod wager;
