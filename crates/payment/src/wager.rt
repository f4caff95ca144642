// A hand's wager W (document 01, "The seventeen calls", stake and double). Stakes are 32 bits wide, so every value is taken and nothing wraps.
ghost use Rattle.std.specs.Prelude.{◌≡◌};
ghost use Rattle.rules.specs.SeatHand.{played_of};
ghost use Rattle.payment.specs.Wager.{wager as wager_of};

use rules::seat_hand::{BY_DOUBLE, SeatHand};

// Twice the stake after a double, else the stake.
#[tactic(auto, unfolding(crate::specs::Wager::wager))]
pub fn wager(stake: u32, h: SeatHand) -> u64
    ensures { result ≡ wager_of stake (played_of h) }
{
    let s = stake as u64;
    if h.ended == BY_DOUBLE { 2 * s } else { s }
}
