// Low sum, total and bust of a hand (document 01, "Cards and totals", article 8). Every hand is taken, also a damaged one.
ghost use Rattle.std.specs.Prelude.{◌≡◌};
ghost use Rattle.cards.specs.Hand.{cards_of};
ghost use Rattle.cards.specs.Total.{low_sum, has_ace, total as total_of, is_bust};

use crate::card::{is_ace, points};
use crate::hand::Hand;

// The low sum: all points, aces as 1. It is run up in a byte (request 2.4): a hand is read as twenty cards at most, and those come to 200 at most.
pub fn low_sum(h: Hand) -> u8
    ensures { result ≡ low_sum (cards_of h) }
{
    h.held_cards().iter().map(|card| points(*card)).sum()
}

// Whether an ace is among the cards.
pub(crate) fn has_ace(h: Hand) -> bool
    ensures { result ≡ has_ace (cards_of h) }
{
    h.held_cards().iter().any(|card| is_ace(*card))
}

// The total: an ace counts eleven where that comes to at most 21.
#[tactic(auto, unfolding(crate::specs::Total::total))]
pub fn total(h: Hand) -> u32
    ensures { result ≡ total_of (cards_of h) }
{
    let low = low_sum(h) as u32;
    if low <= 11 && has_ace(h) {
        low + 10
    } else {
        low
    }
}

// Whether the total is above 21.
pub fn is_bust(h: Hand) -> bool
    ensures { result ≡ is_bust (cards_of h) }
{
    21 < total(h)
}
