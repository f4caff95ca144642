// What stand, even and five share: the hand whose turn it is ends by the decision. No money and no card moves.
ghost use Rattle.std.specs.Prelude.{◌≡◌};
ghost use Rattle.answer.specs.Moved.{moved_table};
ghost use Rattle.decisions_spec.specs.Turn.{end_effect};
ghost use Rattle.decisions.specs.InTurn.{InTurn};

use crate::turn::{HandInTurn, with_place};
use answer::moved::{Moved, seat_moved};
use state::seat::guest_seat;
use table::Table;

// By the decision of this code. It asks that the hand is the one whose turn it is, as a draw and a split ask with more (`Drawable`, `Splits` of draw): of a table and a hand, so no type of the
// hand can say it.
// The code is the byte that the hand then holds.
pub(crate) fn ended(t: &Table, turn: HandInTurn, code: u8) -> Moved
    requires { InTurn t.now turn }
    ensures { moved_table t.now turn.guest.seat result ≡ end_effect code t.now turn.guest.seat }
{
    let mut hand = turn.in_seat.hand;
    hand.ended = code;
    let seat = *guest_seat(t, turn.guest);
    seat_moved(t, with_place(seat, turn.place, hand))
}
