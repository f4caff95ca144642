// A hand's special prize (document 01, "Payment", article 15, and request 2.2). Stakes are 32 bits wide, so every value is taken and nothing wraps.
ghost use Rattle.std.specs.Prelude.{◌≡◌};
ghost use Rattle.rules.specs.SeatHand.{played_of};
ghost use Rattle.payment.specs.Prize.{prize as prize_of};

use crate::wager::wager;
use cards::prize_hand::is_prize_hand;
use options::Options;
use rules::seat_hand::SeatHand;

// Three times the wager for three sevens or a suited 6-7-8, if the option is on.
#[tactic(auto, using(crate::proofs::Bounds::wager_bounds), unfolding(crate::specs::Prize::prize))]
pub fn prize(o: Options, stake: u32, h: SeatHand) -> u64
    ensures { result ≡ prize_of o stake (played_of h) }
{
    if o.prize == 1 && is_prize_hand(h.hand) {
        3 * wager(stake, h)
    } else {
        0
    }
}
