// A guest's seat and money (request 2.8), read of the table and put back; who decides for a seat; and whether nobody is there.
// `seat_at`, `money_at` and `guest_at` read by number, and ask for one of the nine, or of the three.
ghost use Rattle.std.specs.Prelude.{◌≡◌, ◌<◌, eqb, get_or};
ghost use Rattle.lists.specs.Below.{all_below};
ghost use Rattle.table.specs.Guest.{is_nobody, nobody_in};
ghost use Rattle.table.specs.Seat.{guest_at, with_guest, decider as decider_of};
ghost use Rattle.table.specs.Table.{seat_at, guest_of, with_seat};

use crate::shape::seats_shape;
use call::guest::Guest;
use options::Options;
use options::decider::deciding_position;
use table::{Money, Seat, Table};

// The seat of that number.
pub fn seat_at(t: &Table, i: usize) -> &Seat
    requires { i < 9 }
    ensures { result.now ≡ seat_at t.now i }
{
    seats_shape(&t.seats);
    &t.seats[i]
}

// The seat of a guest.
pub fn guest_seat(t: &Table, g: Guest) -> &Seat
    ensures { result.now ≡ seat_at t.now g.seat }
{
    seat_at(t, g.seat())
}

// The table with that seat in place i; the table itself where it has no such place.
pub fn with_seat(t: Table, i: usize, s: Seat) -> Table
    ensures { result ≡ with_seat t i s }
{
    if 9 <= i {
        return t;
    }
    let mut next = t;
    next.seats[i] = s;
    next
}

// The money of the guest of a seat in that position.
#[tactic(auto, unfolding(table::specs::Seat::guest_at))]
pub fn money_at(s: &Seat, p: u8) -> &Money
    requires { p < 3 }
    ensures { result.now ≡ (guest_at s.now p).money }
{
    match p {
        0 => &s.money,
        1 => &s.others[0],
        _ => &s.others[1],
    }
}

// The money of a guest.
pub fn guest_money(t: &Table, g: Guest) -> &Money
    ensures { result.now ≡ (guest_of t.now g.seat g.position).money }
{
    money_at(guest_seat(t, g), g.position())
}

// The seat as that of the guest in that position, as if alone there.
pub fn guest_at(s: &Seat, p: u8) -> Seat
    requires { p < 3 }
    ensures { result ≡ guest_at s.now p }
{
    Seat {
        money: *money_at(s, p),
        ..*s
    }
}

// The seat of a guest as that guest's, as if alone there.
pub fn guest_of(t: &Table, g: Guest) -> Seat
    ensures { result ≡ guest_of t.now g.seat g.position }
{
    guest_at(guest_seat(t, g), g.position())
}

// The seat with other money of the guest in that position; the seat itself where there is no such position.
#[tactic(auto, unfolding(table::specs::Seat::with_guest))]
pub fn with_guest(s: Seat, p: u8, m: Money) -> Seat
    ensures { result ≡ with_guest s p m }
{
    let mut next = s;
    match p {
        0 => {
            next.money = m;
        }
        1 => {
            next.others[0] = m;
        }
        2 => {
            next.others[1] = m;
        }
        _ => {}
    }
    next
}

// The position of the guest who decides for the seat.
#[tactic(auto, unfolding(table::specs::Seat::guest_at))]
pub fn decider(o: Options, s: Seat) -> u8
    ensures { result ≡ decider_of o s }
{
    deciding_position(o, s.money.stake, s.others[0].stake, s.others[1].stake)
}

// No side stake lies there.
pub fn no_sides(sides: [u32; 4]) -> bool
    ensures { result ≡ all_below (λ k. eqb (get_or sides k 0) 0) 4 }
{
    sides == [0; 4]
}

// A guest without purse and stakes: nobody. Here and below there is no branch: the compiler joins the tests of a seat, which are passed nearly always.
pub fn no_money(m: Money) -> bool
    ensures { result ≡ is_nobody m }
{
    (m.purse == 0) & (m.stake == 0) & (m.insurance == 0) & no_sides(m.sides)
}

// Whether nobody bets on a seat beside the seated guest, as on most: who goes through all guests passes both others over at once.
pub fn nobody_beside(others: [Money; 2]) -> bool
    ensures { result ≡ nobody_in others }
{
    no_money(others[0]) & no_money(others[1])
}
