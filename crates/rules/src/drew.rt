// Whether a seat has drawn, doubled or split (document 01, "The seventeen calls", surrender).
ghost use Rattle.std.specs.Prelude.{◌≡◌};
ghost use Rattle.rules.specs.SeatHand.{hands_of};
ghost use Rattle.rules.specs.Drew.{seat_drew};

use crate::seat_hand::{SeatHands, has_two_cards};

#[tactic(auto, unfolding(crate::specs::Drew::seat_drew, lists::specs::Tests::any_of))]
pub fn seat_drew(s: SeatHands) -> bool
    ensures { result ≡ seat_drew (hands_of s) }
{
    match s.in_use() {
        [] => false,
        [only] => !has_two_cards(*only),
        _ => true,
    }
}
