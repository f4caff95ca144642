// A table has the lengths that its structs declare. The types of the code say so of every value; these functions do nothing but hand it on as a fact, element by element, to the
// laws that ask for it.
ghost use Rattle.std.specs.Prelude.{◌≡◌, length};
ghost use Rattle.table.specs.Shape.{Shaped, ShapedSeat};

use rules::seat_hand::SeatHand;
use table::{Money, Seat, Table};

fn hand_shape(h: SeatHand)
    ensures { length h.hand.cards ≡ 20 }
{}

fn money_shape(m: Money)
    ensures { length m.sides ≡ 4 }
{}

#[tactic(auto, unfolding(table::specs::Seat::guest_at))]
fn seat_shape(s: Seat)
    ensures { ShapedSeat s }
{
    hand_shape(s.hands.places[0]);
    hand_shape(s.hands.places[1]);
    hand_shape(s.hands.places[2]);
    hand_shape(s.hands.places[3]);
    money_shape(s.money);
    money_shape(s.others[0]);
    money_shape(s.others[1]);
}

// Of the nine seats where a table is lent.
pub fn seats_shape(seats: &[Seat; 9])
    ensures { length seats.now ≡ 9 }
{}

// Of the four places where a seat is.
pub fn places_shape(places: &[SeatHand; 4])
    ensures { length places.now ≡ 4 }
{}

pub fn table_shape(t: Table)
    ensures { Shaped t }
{
    for s in &t.seats {
        seat_shape(*s);
    }
}
