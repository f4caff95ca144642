// For which hands even and five are open (articles 10 n.º 3 and 19), against the up card.
ghost use Rattle.std.specs.Prelude.{◌≡◌};
ghost use Rattle.rules.specs.SeatHand.{played_of};
ghost use Rattle.rules.specs.OpenCalls.{even_open, five_open};

use crate::seat_hand::{SeatHand, is_natural};
use cards::card::{is_ace, is_ten_value};
use cards::total::is_bust;
use options::Options;

// A natural against an ace or ten-value.
#[tactic(auto, unfolding(crate::specs::OpenCalls::even_open))]
pub fn even_open(up: u8, h: SeatHand) -> bool
    ensures { result ≡ even_open up (played_of h) }
{
    is_natural(h) && (is_ace(up) || is_ten_value(up))
}

// Option on, exactly five cards, total at most 21, up card no ace.
#[tactic(auto, unfolding(crate::specs::OpenCalls::five_open))]
pub fn five_open(o: Options, up: u8, h: SeatHand) -> bool
    ensures { result ≡ five_open o up (played_of h) }
{
    o.five == 1 && (h.hand.held_cards().len() == 5 && (!is_bust(h.hand) && !is_ace(up)))
}
