// How far the round has come: whether somebody has drawn, doubled or split, and whether a decision was taken (document 01, "The seventeen calls", insure
// and surrender). Every table is taken, one with a damaged count too.
ghost use Rattle.std.specs.Prelude.{◌≡◌, ltb};
ghost use Rattle.lists.specs.Tests.{any_of};
ghost use Rattle.rules.specs.SeatHand.{hands_of};
ghost use Rattle.table.specs.Progress.{any_drew, any_decided};

use rules::drew::seat_drew;
use rules::seat_hand::{NOT_ENDED, SeatHands};
use table::Table;

// Whether a hand of the seat has ended by a decision.
fn some_ended(s: SeatHands) -> bool
    ensures { result ≡ any_of (λ h. ltb 0 h.ended) (hands_of s) }
{
    s.in_use().iter().any(|h| NOT_ENDED < h.ended)
}

// Whether somebody has drawn, doubled or split in this round.
pub(crate) fn any_drew(t: &Table) -> bool
    ensures { result ≡ any_drew t.now }
{
    t.seats.iter().any(|s| seat_drew(s.hands))
}

// Whether a decision was taken in this round.
pub fn any_decided(t: &Table) -> bool
    ensures { result ≡ any_decided t.now }
{
    any_drew(t) || t.seats.iter().any(|s| some_ended(s.hands))
}
