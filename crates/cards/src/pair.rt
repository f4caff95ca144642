// Pair: two cards of one rank; jack and queen are none (article 13).
ghost use Rattle.std.specs.Prelude.{◌≡◌};
ghost use Rattle.cards.specs.Hand.{cards_of};
ghost use Rattle.cards.specs.Pair.{is_pair};

use crate::card::rank;
use crate::hand::Hand;

#[tactic(auto, unfolding(crate::specs::Pair::is_pair))]
pub fn is_pair(h: Hand) -> bool
    ensures { result ≡ is_pair (cards_of h) }
{
    match h.held_cards() {
        [one, other] => rank(*one) == rank(*other),
        _ => false,
    }
}
