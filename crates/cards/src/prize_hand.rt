// Prize hand (document 01, "Payment", article 15): three sevens, or a suited 6-7-8 in any order.
ghost use Rattle.std.specs.Prelude.{◌≡◌, ◌<◌, eqb, length, get_or};
ghost use Rattle.lists.specs.Tests.{any_of, all_of};
ghost use Rattle.cards.specs.Card.{suit_of};
ghost use Rattle.cards.specs.Hand.{cards_of};
ghost use Rattle.cards.specs.PrizeHand.{has_rank, all_sevens, suited_six_seven_eight, is_prize_hand};

use crate::card::{rank, suit};
use crate::hand::Hand;

// Whether one of the cards has the rank.
fn one_has_rank(wanted: u8, cards: &[u8]) -> bool
    ensures { result ≡ any_of (has_rank wanted) cards.now }
{
    cards.iter().any(|card| rank(*card) == wanted)
}

fn all_sevens(cards: &[u8]) -> bool
    ensures { result ≡ all_sevens cards.now }
{
    cards.iter().all(|card| rank(*card) == 6)
}

// Whether the cards are of one suit, the first one's. It asks for a card.
fn one_suit(cards: &[u8]) -> bool
    requires { 0 < length cards.now }
    ensures { result ≡ all_of (λ card. eqb (suit_of card) (suit_of (get_or cards.now 0 0))) cards.now }
{
    let first = suit(cards[0]);
    cards.iter().all(|card| suit(*card) == first)
}

#[tactic(auto, unfolding(crate::specs::PrizeHand::suited_six_seven_eight))]
fn suited_six_seven_eight(cards: &[u8]) -> bool
    requires { 0 < length cards.now }
    ensures { result ≡ suited_six_seven_eight cards.now }
{
    one_has_rank(5, cards)
        && (one_has_rank(6, cards) && (one_has_rank(7, cards) && one_suit(cards)))
}

#[tactic(auto, unfolding(crate::specs::PrizeHand::is_prize_hand))]
pub fn is_prize_hand(h: Hand) -> bool
    ensures { result ≡ is_prize_hand (cards_of h) }
{
    let cards = h.held_cards();
    cards.len() == 3 && (all_sevens(cards) || suited_six_seven_eight(cards))
}
