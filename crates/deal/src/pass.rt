// The passes of a deal: from the lowest seat one card to each staked seat (document 01, "The seventeen calls"). Every table is taken.
ghost use Rattle.std.specs.Prelude.{◌≡◌, cond, ◌≤◌, set};
ghost use Rattle.table.specs.Seat.{is_staked};
ghost use Rattle.deal_spec.specs.Deal.{staked_seats};
ghost use Rattle.deal.specs.Aids.Passed.{hand_for, give, serve, passed};

use cards::hand::{Hand, empty_hand, with_card};
use rules::seat_hand::{DEALT, NOT_ENDED, SeatHand, SeatHands};
use shoe::card_ahead;
use table::{Seat, Table};

// How many cards a pass takes for the seat.
fn taken(s: Seat) -> usize
    ensures { result ≡ cond (is_staked s) 1 0 }
{
    let money = s.money;
    if 0 < money.stake { 1 } else { 0 }
}

// How many seats have a stake.
pub(crate) fn staked_seats(t: Table) -> usize
    ensures same { result ≡ staked_seats t.seats }
    ensures few { result ≤ 9 }
{
    let mut n: usize = 0;
    for s in &t.seats {
        n += taken(*s);
    }
    n
}

// The hand that a seat's card goes to: an empty one in the first pass, then that of its first place.
// Here and below `first` is a value that the definition of a pass takes as well: the two passes are one walk.
fn hand_for(first: bool, s: SeatHands) -> Hand
    ensures { result ≡ hand_for first s }
{
    if first {
        return empty_hand();
    }
    let h = s.places[0];
    h.hand
}

// The copies of the first cards, with this one: the first or the second of the seat.
fn kept(first: bool, cards: [u8; 3], card: u8) -> [u8; 3]
    ensures { result ≡ set cards (cond first 0 1) card }
{
    let mut next = cards;
    if first {
        next[0] = card;
    } else {
        next[1] = card;
    }
    next
}

// The seat with one hand alone, which has the card; a copy of it is kept for the side stakes.
fn with_next(first: bool, s: Seat, card: u8) -> Seat
    ensures { result ≡ give first s card }
{
    let mut hands = s.hands;
    let hand = with_card(hand_for(first, hands), card);
    hands.places[0] = SeatHand {
        hand,
        origin: DEALT,
        ended: NOT_ENDED,
    };
    hands.many = 1;
    let old = s.first;
    let cards = kept(first, old, card);
    let mut next = s;
    next.hands = hands;
    next.first = cards;
    next
}

// The seat after the pass: with the card where it has a stake.
fn served(first: bool, s: Seat, card: u8) -> Seat
    ensures { result ≡ serve first s card }
{
    let money = s.money;
    if !(0 < money.stake) {
        return s;
    }
    with_next(first, s, card)
}

// One pass: each staked seat takes the next card, the first of them the card `at` behind the next one of the shoe: so `at` is asked to be
// a place of a shoe.
pub(crate) fn pass(t: Table, first: bool, at: usize) -> Table
    requires { at ≤ 416 }
    ensures { result ≡ passed first at t }
{
    let shoe = t.shoe;
    let order = shoe.order;
    let mut next = t;
    let mut n = at;
    for (i, s) in t.seats.iter().enumerate() {
        next.seats[i] = served(first, *s, card_ahead(&order[..], shoe.drawn, n));
        n += taken(*s);
    }
    next
}
