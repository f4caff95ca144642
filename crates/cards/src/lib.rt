// Cards and what a list of them comes to (document 01, "Cards and totals"): points, the hand of up to twenty, total, score, natural, pair, prize hand. Every byte
// is taken for a card and every hand for one, a damaged one too; nothing here knows a seat, a stake or the bank.
#![tactic(auto)]

pub mod card;
pub mod hand;
pub mod natural;
pub mod pair;
pub mod prize_hand;
pub mod score;
pub mod total;
