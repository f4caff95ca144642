// How the bank's cards stand (articles 6 and 10): whether it must draw, and what payment asks of them.
ghost use Rattle.std.specs.Prelude.{◌≡◌};
ghost use Rattle.cards.specs.Hand.{cards_of};
ghost use Rattle.payment.specs.Bank.{must_draw, score_of};

use cards::hand::Hand;
use cards::natural::is_natural;
use cards::total::total;

// The bank's total, and whether its two cards are a natural.
#[derive(Clone, Copy)]
pub struct Score {
    pub total: u32,
    pub natural: bool,
}

#[tactic(auto, unfolding(crate::specs::Bank::must_draw))]
pub fn must_draw(h: Hand) -> bool
    ensures { result ≡ must_draw (cards_of h) }
{
    total(h) <= 16
}

pub fn score_of(h: Hand) -> Score
    ensures { result ≡ score_of (cards_of h) }
{
    Score {
        total: total(h),
        natural: is_natural(h),
    }
}
