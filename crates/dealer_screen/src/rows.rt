// The rows of hands: first those that wait, which begin with the one whose turn it is, then the others, both by seat and place.
ghost use Rattle.std.specs.Prelude.{◌≡◌, [], ◌+◌, ◌≤◌, ◌<◌};
ghost use Rattle.dealer_screen.specs.Rows.{row as row_by, no_row, seat_rows, table_rows, all_rows};
ghost use Rattle.dealer_screen.specs.Aids.Held.{rows_of, with_row, with_rows, wanted as wanted_by};

use cards::hand::{Hand, empty_hand};
use cards::score::hand_score;
use options::Options;
use rules::seat_hand::{HandInSeat, SeatHand, used};
use state::round::up;
use table::whole::Whole;
use table::{Seat, Table};

// Seat, place, cards and total of a hand.
#[repr(C)]
#[derive(Clone, Copy)]
pub struct Row {
    pub seat: usize,
    pub place: usize,
    pub hand: Hand,
    pub total: u8,
}

// The first six rows, and how many hands there are in all, more than six too.
#[derive(Clone, Copy)]
pub(crate) struct Rows {
    pub each: [Row; 6],
    // An array with its number, as in the screen that it becomes.
    pub count: usize,
}

fn hand_row(seat: usize, place: usize, h: SeatHand) -> Row
    ensures { result ≡ row_by seat place h }
{
    Row {
        seat,
        place,
        hand: h.hand,
        total: hand_score(h.hand).total,
    }
}

fn no_row() -> Row
    ensures { result ≡ no_row }
{
    Row {
        seat: 0,
        place: 0,
        hand: empty_hand(),
        total: 0,
    }
}

pub(crate) fn no_rows() -> Rows
    ensures { result ≡ rows_of [] }
{
    Rows {
        each: [no_row(); 6],
        count: 0,
    }
}

// One row more: it is kept where there is room, and counted.
// Here and below the count is asked to be small enough for what is added, another number each: a type would have to hold it, and each would ask again.
fn with_row(rows: Rows, r: Row) -> Rows
    requires { rows.count < 72 }
    ensures { result ≡ with_row rows r }
{
    let at = rows.count;
    let mut next = rows;
    next.count = at + 1;
    if at < 6 {
        next.each[at] = r;
    }
    next
}

// Whether the hand is one of those that are gathered: that wait, or that do not.
// `waiting` is a value that the definition takes as well: the rows are gathered by two walks of one kind.
fn wanted(waiting: bool, o: Options, h: HandInSeat) -> bool
    ensures { result ≡ wanted_by waiting o h.up h.many h.hand }
{
    let w = h.waits(o);
    if waiting { w } else { !w }
}

// With those of a seat.
fn seat_rows(rows: Rows, waiting: bool, o: Options, card: u8, seat: usize, s: Seat) -> Rows
    requires { rows.count ≤ 68 }
    ensures same { result ≡ with_rows rows (seat_rows waiting o card seat s) }
    ensures few { result.count ≤ rows.count + 4 }
{
    let many = used(s.hands);
    let mut next = rows;
    for (place, h) in s.hands.in_use().iter().enumerate() {
        let in_seat = HandInSeat {
            up: card,
            many,
            hand: *h,
        };
        if wanted(waiting, o, in_seat) {
            next = with_row(next, hand_row(seat, place, *h));
        }
    }
    next
}

// With those of all seats.
fn table_rows(rows: Rows, waiting: bool, t: Table) -> Rows
    requires { rows.count ≤ 36 }
    ensures same { result ≡ with_rows rows (table_rows waiting t) }
    ensures few { result.count ≤ rows.count + 36 }
{
    let card = up(t);
    let mut next = rows;
    for (i, s) in t.seats.iter().enumerate() {
        next = seat_rows(next, waiting, t.options, card, i, *s);
    }
    next
}

pub(crate) fn all_rows(t: &Whole) -> Rows
    ensures { result ≡ rows_of (all_rows t.now) }
{
    let t = t.table();
    let waiting = table_rows(no_rows(), true, *t);
    table_rows(waiting, false, *t)
}
