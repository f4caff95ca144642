// Natural: two cards, an ace and a ten-value (article 10).
ghost use Rattle.std.specs.Prelude.{◌≡◌};
ghost use Rattle.cards.specs.Hand.{cards_of};
ghost use Rattle.cards.specs.Natural.{is_natural};

use crate::card::{is_ace, is_ten_value};
use crate::hand::Hand;

#[tactic(auto, unfolding(crate::specs::Natural::is_natural, lists::specs::Tests::any_of))]
pub fn is_natural(h: Hand) -> bool
    ensures { result ≡ is_natural (cards_of h) }
{
    match h.held_cards() {
        [one, other] => {
            is_ace(*one) && is_ten_value(*other) || is_ace(*other) && is_ten_value(*one)
        }
        _ => false,
    }
}
