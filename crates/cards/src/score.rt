// What the dealer calls aloud of a hand: its total, and soft where an ace counts eleven (request 2.1, article 7). Every hand is taken, also a damaged one.
ghost use Rattle.std.specs.Prelude.{◌≡◌};
ghost use Rattle.cards.specs.Hand.{cards_of};
ghost use Rattle.cards.specs.Score.{hand_score};

use crate::hand::Hand;
use crate::total::{low_sum, total};

// A total of at most 200 and a yes or no.
#[repr(C)]
#[derive(Clone, Copy)]
pub struct HandScore {
    pub total: u8,
    pub soft: bool,
}

pub fn hand_score(h: Hand) -> HandScore
    ensures { result ≡ hand_score (cards_of h) }
{
    let low = low_sum(h) as u32;
    let all = total(h);
    HandScore {
        total: all as u8,
        soft: all == low + 10,
    }
}
