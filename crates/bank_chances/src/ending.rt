// Where the bank's rule ends (request 2.10).
ghost use Rattle.std.specs.Prelude.{◌≡◌};
ghost use Rattle.cards.specs.Hand.{cards_of};
ghost use Rattle.bank_chances.specs.Ending.{ending_of};

use cards::hand::Hand;
use payment::bank::{must_draw, score_of};

// 0 natural, 1 to 5 a total of 17 to 21 otherwise, 6 bust, 7 unfinished. A number and no enum: it is the place of a count in the answer, an array that C reads.
#[tactic(auto, unfolding(crate::specs::Ending::ending_of, payment::specs::Bank::must_draw))]
pub(crate) fn ending(bank: Hand) -> u8
    ensures { result ≡ ending_of (cards_of bank) }
{
    let score = score_of(bank);
    if must_draw(bank) {
        7
    } else if score.natural {
        0
    } else if 21 < score.total {
        6
    } else {
        (score.total - 16) as u8
    }
}
