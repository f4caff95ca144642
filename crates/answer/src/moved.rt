// What an accepted call of one seat gives back: the parts of the table that it has moved, so that a step copies the table once.
ghost use Rattle.std.specs.Prelude.{◌≡◌, set};
ghost use Rattle.table.specs.Seat.{with_guest};
ghost use Rattle.table.specs.Table.{seat_at};
ghost use Rattle.answer.specs.Moved.{make_moved, moved_table};

use call::guest::Guest;
use state::seat::{guest_seat, with_guest};
use table::{Money, Seat, Table};

// The seat after the call, the tray, the number of drawn cards, and the place of the hand that the call was about, which is called aloud.
#[derive(Clone, Copy)]
pub struct Moved {
    pub tray: u64,
    pub seat: Seat,
    pub drawn: usize,
    pub hand: usize,
}

// Nothing but the seat.
pub fn seat_moved(t: &Table, seat: Seat) -> Moved
    ensures { result ≡ make_moved t.now.tray seat t.now.shoe.drawn 0 }
{
    Moved {
        tray: t.tray,
        seat,
        drawn: t.shoe.drawn,
        hand: 0,
    }
}

// Nothing but a guest's money.
pub fn money_moved(t: &Table, g: Guest, m: Money) -> Moved
    ensures { result ≡ make_moved t.now.tray (with_guest (seat_at t.now g.seat) g.position m) t.now.shoe.drawn 0 }
{
    seat_moved(t, with_guest(*guest_seat(t, g), g.position(), m))
}

// A seat put in its place: past the nine none is stored.
fn put_seat(seats: &mut [Seat; 9], seat: u8, s: Seat)
    ensures { seats.new ≡ set seats.old seat s }
{
    let i = usize::from(seat);
    if i < 9 {
        seats[i] = s;
    }
}

// Put into the table where it lies.
pub fn put_moved(t: &mut Table, seat: u8, m: Moved)
    ensures { t.new ≡ moved_table t.old seat m }
{
    t.tray = m.tray;
    t.shoe.drawn = m.drawn;
    put_seat(&mut t.seats, seat, m.seat);
}
