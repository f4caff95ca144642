// What the six decisions in turn share: their conditions, behind which stands the hand whose turn it is with what the rules ask of it, and a hand put back in its place.
// Public for the decisions that draw cards (crate draw). `waiting_hand` asks that a hand of the seat waits, as one does behind these conditions.
ghost use Rattle.std.specs.Prelude.{◌≡◌, true};
ghost use Rattle.rules.specs.Turn.{seat_waits, waiting_place};
ghost use Rattle.table.specs.Seat.{hands as hands_of};
ghost use Rattle.table.specs.Table.{seat_at, up as up_of};
ghost use Rattle.decisions_spec.specs.Place.{place_of, with_place};
ghost use Rattle.decisions_spec.specs.Turn.{turn_conditions};
ghost use Rattle.decisions.specs.InTurn.{InTurn, TurnChecked};

use answer::conditions::guest_in_round;
use call::At;
use call::guest::Guest;
use call::refusal::{Refusal, first_refusal};
use options::Options;
use rules::seat_hand::{HandInSeat, SeatHand, used};
use rules::turn::waiting_place;
use state::round::up;
use state::seat::{decider, guest_money, guest_seat};
use state::shape::places_shape;
use state::turn::seat_in_turn;
use table::whole::Whole;
use table::{Seat, Table};

// A hand whose turn it is: the guest who decides for it, its place among those of its seat, and itself as the rules are asked of it.
#[derive(Clone, Copy)]
pub struct HandInTurn {
    pub guest: Guest,
    pub place: usize,
    pub in_seat: HandInSeat,
}

// The first waiting hand of a seat that has one, whether it lies in a table or not.
pub fn waiting_hand(o: Options, up: u8, s: &Seat) -> SeatHand
    requires { seat_waits o up (hands_of s.now) ≡ true }
    ensures { result ≡ place_of s.now (waiting_place o up (hands_of s.now)) }
{
    let hands = s.hands;
    places_shape(&hands.places);
    hands.places[waiting_place(o, up, hands)]
}

// The first waiting hand of the guest's seat, which has one, with what is read of the table beside it.
fn read_hand(t: &Table, guest: Guest) -> HandInTurn
    requires { seat_waits t.now.options (up_of t.now) (hands_of (seat_at t.now guest.seat)) ≡ true }
    ensures same { result.guest ≡ guest }
    ensures turn { InTurn t.now result }
{
    let hands = guest_seat(t, guest).hands;
    places_shape(&hands.places);
    let up = up(*t);
    let place = waiting_place(t.options, up, hands);
    HandInTurn {
        guest,
        place,
        in_seat: HandInSeat {
            up,
            many: used(hands),
            hand: hands.places[place],
        },
    }
}

// Why a decision in turn is refused, whatever it asks behind: the conditions of every call of a guest, then 10 no stake, 11 not that seat's turn, 23 not the deciding
// guest. Behind them stands the hand.
pub fn hand_in_turn(t: &Whole, at: At) -> Result<HandInTurn, Refusal>
    ensures { TurnChecked (turn_conditions t.now at.seat at.position) t.now at result }
{
    let guest = guest_in_round(t, at)?;
    let t = t.table();
    let money = guest_money(t, guest);
    first_refusal(&[
        (Refusal::NoStake, !(0 < money.stake)),
        (Refusal::NotInTurn, seat_in_turn(t) != guest.seat()),
        (
            Refusal::NotDeciding,
            decider(t.options, *guest_seat(t, guest)) != at.position,
        ),
    ])?;
    Ok(read_hand(t, guest))
}

// The seat with that hand in place p; the seat itself where it has no such place.
pub fn with_place(s: Seat, p: usize, h: SeatHand) -> Seat
    ensures { result ≡ with_place s p h }
{
    if 4 <= p {
        return s;
    }
    let mut next = s;
    next.hands.places[p] = h;
    next
}
