// What a display reads of a guest at a seat. A broken table, a seat beyond the option and a position that there is not show an empty seat.
ghost use Rattle.std.specs.Prelude.{◌≡◌};
ghost use Rattle.display.specs.Seat.{seat_values, guest_or_empty, seat_shown};

use broken::broken;
use call::At;
use call::guest::Guest;
use money::seat_money::{laid, prizes};
use options::Options;
use rules::seat_hand::used;
use state::empty::empty_seat;
use state::seat::guest_of;
use table::{Money, Seat, Table};

// The purse, the stake, the insurance and the side stakes by kind; the layout money and the prizes in this round; how many hands.
#[repr(C)]
#[derive(Clone, Copy)]
pub struct SeatShown {
    pub purse: u64,
    pub stake: u32,
    pub insurance: u32,
    pub sides: [u32; 4],
    pub layout: u64,
    pub prizes: u64,
    pub hands: usize,
}

fn seat_values(o: Options, s: Seat) -> SeatShown
    ensures { result ≡ seat_values o s }
{
    let Money {
        purse,
        stake,
        insurance,
        sides,
    } = s.money;
    SeatShown {
        purse,
        stake,
        insurance,
        sides,
        layout: laid(s),
        prizes: prizes(o, s),
        hands: used(s.hands),
    }
}

// The guest in that position of the seat, or an empty seat where the table is broken or has no such seat or position.
pub(crate) fn guest_or_empty(t: Table, seat: u8, position: u8) -> Seat
    ensures { result ≡ guest_or_empty t seat position }
{
    if broken(&t) {
        return empty_seat();
    }
    if t.options.seats <= seat {
        return empty_seat();
    }
    if 3 <= position {
        return empty_seat();
    }
    guest_of(&t, Guest::new(At { seat, position }))
}

pub fn shown_seat(t: Table, seat: u8, position: u8) -> SeatShown
    ensures { result ≡ seat_shown t seat position }
{
    seat_values(t.options, guest_or_empty(t, seat, position))
}
