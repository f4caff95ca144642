// Where in a seat the turn is. The walk over the seats belongs to the table, which has them.
ghost use Rattle.std.specs.Prelude.{◌≡◌};
ghost use Rattle.rules.specs.SeatHand.{hands_of};
ghost use Rattle.rules.specs.Turn.{seat_waits, waiting_place};

use crate::seat_hand::{HandInSeat, SeatHands, used};
use options::Options;

// The place of the first waiting hand, or the number of the seat's hands where none waits: a number and no Option, as its definition names it.
pub fn waiting_place(o: Options, up: u8, s: SeatHands) -> usize
    ensures { result ≡ waiting_place o up (hands_of s) }
{
    let n = used(s);
    s.in_use()
        .iter()
        .position(|h| HandInSeat {
            up,
            many: n,
            hand: *h,
        }
        .waits(o))
        .unwrap_or(n)
}

// Whether some hand of the seat waits.
pub fn seat_waits(o: Options, up: u8, s: SeatHands) -> bool
    ensures { result ≡ seat_waits o up (hands_of s) }
{
    let n = used(s);
    s.in_use().iter().any(|h| HandInSeat {
        up,
        many: n,
        hand: *h,
    }
    .waits(o))
}
