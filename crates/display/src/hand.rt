// What a display reads of a hand in its place. A broken table, a seat beyond the option and a place with no hand show nothing.
ghost use Rattle.std.specs.Prelude.{◌≡◌};
ghost use Rattle.display.specs.Hand.{no_hand_shown, hand_values, place_shown, hand_shown};

use crate::seat::guest_or_empty;
use cards::hand::{Hand, empty_hand};
use cards::score::hand_score;
use payment::wager::wager;
use rules::seat_hand::{DEALT, NOT_ENDED, SeatHand, used};
use table::{Seat, Table};

// A hand's cards, their total and whether it is soft, its wager, where it comes from and how it ended.
#[repr(C)]
#[derive(Clone, Copy)]
pub struct HandShown {
    pub hand: Hand,
    pub total: u8,
    pub soft: bool,
    pub wager: u64,
    // Bytes and no enum, as they stand in the table: C reads them, and any byte is shown as it is.
    pub origin: u8,
    pub ended: u8,
}

fn no_hand() -> HandShown
    ensures { result ≡ no_hand_shown }
{
    HandShown {
        hand: empty_hand(),
        total: 0,
        soft: false,
        wager: 0,
        origin: DEALT,
        ended: NOT_ENDED,
    }
}

fn hand_values(stake: u32, h: SeatHand) -> HandShown
    ensures { result ≡ hand_values stake h }
{
    let score = hand_score(h.hand);
    HandShown {
        hand: h.hand,
        total: score.total,
        soft: score.soft,
        wager: wager(stake, h),
        origin: h.origin,
        ended: h.ended,
    }
}

// The hand in that place of the seat.
fn shown_place(s: Seat, place: usize) -> HandShown
    ensures { result ≡ place_shown s place }
{
    if used(s.hands) <= place {
        return no_hand();
    }
    hand_values(s.money.stake, s.hands.places[place])
}

// With the wager of the guest in that position.
pub fn shown_hand(t: Table, seat: u8, position: u8, place: usize) -> HandShown
    ensures { result ≡ hand_shown t seat position place }
{
    shown_place(guest_or_empty(t, seat, position), place)
}
