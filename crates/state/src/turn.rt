// Whose turn it is over the whole table (document 01, "The seventeen calls"). Every table is taken, a damaged count too.
ghost use Rattle.std.specs.Prelude.{◌≡◌};
ghost use Rattle.state.specs.Turn.{seat_in_turn, place_in_turn};

use crate::round::up;
use crate::shape::seats_shape;
use rules::turn::{seat_waits, waiting_place};
use table::Table;

// The first seat with a waiting hand, or 9 where no hand waits: a number and no Option, since displays and definitions name it.
pub fn seat_in_turn(t: &Table) -> usize
    ensures { result ≡ seat_in_turn t.now }
{
    seats_shape(&t.seats);
    let card = up(*t);
    t.seats
        .iter()
        .position(|s| seat_waits(t.options, card, s.hands))
        .unwrap_or(9)
}

// The place of the first waiting hand in the seat whose turn it is, or 0 where no hand waits.
pub fn place_in_turn(t: Table) -> usize
    ensures { result ≡ place_in_turn t }
{
    let i = seat_in_turn(&t);
    if 9 <= i {
        return 0;
    }
    waiting_place(t.options, up(t), t.seats[i].hands)
}
