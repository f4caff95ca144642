// Which hand waits (document 01, "The seventeen calls").
ghost use Rattle.std.specs.Prelude.{◌≡◌};
ghost use Rattle.cards.specs.Hand.{cards_of};
ghost use Rattle.rules.specs.SeatHand.{played_of};
ghost use Rattle.rules.specs.Waits.{is_two_aces, aces_wait, cards_wait, waits as waits_by};

use crate::open_calls::{even_open, five_open};
use crate::seat_hand::{HandInSeat, NOT_ENDED, SPLIT_ACES, SeatHand};
use cards::card::is_ace;
use cards::hand::Hand;
use cards::total::total;
use options::Options;

#[tactic(auto, unfolding(lists::specs::Tests::all_of, crate::specs::Waits::is_two_aces))]
fn is_two_aces(h: Hand) -> bool
    ensures { result ≡ is_two_aces (cards_of h) }
{
    match h.held_cards() {
        [one, other] => is_ace(*one) && is_ace(*other),
        _ => false,
    }
}

// A hand from split aces, in a seat of `many` hands.
#[tactic(auto, unfolding(crate::specs::Waits::aces_wait))]
fn aces_wait(o: Options, many: usize, h: SeatHand) -> bool
    ensures { result ≡ aces_wait o many (played_of h) }
{
    is_two_aces(h.hand) && (o.aces == 1 && many < (o.hands as usize))
}

// Any other hand, by its cards and the up card.
#[tactic(auto, unfolding(crate::specs::Waits::cards_wait))]
fn cards_wait(o: Options, up: u8, h: SeatHand) -> bool
    ensures { result ≡ cards_wait o up (played_of h) }
{
    total(h.hand) < 21 || (even_open(up, h) || five_open(o, up, h))
}

impl HandInSeat {
    // Whether the hand waits.
    #[tactic(auto, unfolding(crate::specs::Waits::waits))]
    pub fn waits(self, o: Options) -> bool
        ensures { result ≡ waits_by o self.up self.many (played_of self.hand) }
    {
        if self.hand.ended != NOT_ENDED {
            false
        } else if self.hand.origin == SPLIT_ACES {
            aces_wait(o, self.many, self.hand)
        } else {
            cards_wait(o, self.up, self.hand)
        }
    }
}
