// The code of the opening and of the calls between rounds: the house's fill, credit and load, the cashier's buy and cash, the guest's stake and side stakes. Each takes
// every whole table, and its outcome is that of its definition in the crate cashier_spec. `purse` and `tray` are what two calls share.
#![tactic(auto)]

pub mod buy;
pub mod cash;
pub mod credit;
pub mod fill;
pub mod load;
pub mod opening;
mod purse;
pub mod side;
pub mod stake;
mod tray;
