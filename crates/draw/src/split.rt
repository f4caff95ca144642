// split: the hand whose turn it is, a pair, becomes two, and each guest's stake is laid again for the new one (document 01, "The seventeen calls", the guest;
// article 16).
ghost use Rattle.std.specs.Prelude.{◌≡◌, ◌<◌, ◌≤◌, get_or};
ghost use Rattle.cards.specs.Hand.{cards_of};
ghost use Rattle.answer.specs.Moved.{moved_table, moved_outcome};
ghost use Rattle.answer.specs.Outcome.{outcome};
ghost use Rattle.decisions_spec.specs.Split.{split_conditions, split_effect, split_hand, split_places, split_first, staked_again};
ghost use Rattle.decisions_spec.specs.Turn.{waiting_place_of};
ghost use Rattle.decisions.specs.InTurn.{TurnChecked};
ghost use Rattle.draw.specs.Told.{Told};
ghost use Rattle.draw.specs.Aids.Splits.{two_for, Pays, Splits};

use crate::card::purse_short;
use answer::moved::Moved;
use call::At;
use call::refusal::{Refusal, first_refusal};
use cards::card::is_ace;
use cards::hand::{Hand, empty_hand, with_card};
use cards::pair::is_pair;
use decisions::turn::{HandInTurn, hand_in_turn};
use rules::seat_hand::{NOT_ENDED, SPLIT, SPLIT_ACES, SeatHand, SeatHands};
use shoe::card_ahead;
use state::round::cards_left;
use state::seat::guest_seat;
use table::whole::Whole;
use table::{Money, Seat, Table};

// A hand of a kept card and a drawn one.
fn split_hand(kept: u8, card: u8) -> SeatHand
    ensures { result ≡ split_hand kept card }
{
    let none = empty_hand();
    let one = with_card(none, kept);
    let hand = with_card(one, card);
    if is_ace(kept) {
        return SeatHand {
            hand,
            origin: SPLIT_ACES,
            ended: NOT_ENDED,
        };
    }
    SeatHand {
        hand,
        origin: SPLIT,
        ended: NOT_ENDED,
    }
}

// The card at a place of the hand, or 0 where it has none there.
fn kept_card(h: Hand, k: usize) -> u8
    requires { k < 20 }
    ensures { result ≡ get_or (cards_of h) k 0 }
{
    if (h.count as usize) <= k {
        return 0;
    }
    h.cards[k]
}

// The four places with the parent at p and the new hand behind it: later hands move up one.
fn split_places(places: [SeatHand; 4], p: usize, parent: SeatHand, new: SeatHand) -> [SeatHand; 4]
    requires { p < 4 }
    ensures { result ≡ split_places places p parent new }
{
    let first = places[0];
    let second = places[1];
    let third = places[2];
    if p == 0 {
        return [parent, new, second, third];
    }
    if p == 1 {
        return [first, parent, new, third];
    }
    if p == 2 {
        return [first, second, parent, new];
    }
    [first, second, third, parent]
}

// The first cards that side stakes are paid by: the first split of a seat adds the first card that it draws.
fn first_of(s: Seat, card: u8) -> [u8; 3]
    ensures { result ≡ split_first s card }
{
    let hands = s.hands;
    let mut next = s.first;
    if hands.many == 1 {
        next[2] = card;
    }
    next
}

// A guest's money with the stake laid again.
fn staked_again(m: Money) -> Money
    requires { m.stake ≤ m.purse }
    ensures { result ≡ staked_again m }
{
    let mut next = m;
    next.purse = m.purse - (m.stake as u64);
    next
}

// The seat with the hand h of its place p split, each guest's stake laid for the new hand.
fn split_seat(s: Seat, p: usize, h: SeatHand, first: u8, second: u8) -> Seat
    requires place { p < 4 }
    requires pays { Pays s }
    ensures { result ≡ two_for s p h first second }
{
    let parent = split_hand(kept_card(h.hand, 0), first);
    let new = split_hand(kept_card(h.hand, 1), second);
    let places = split_places(s.hands.places, p, parent, new);
    let seated = staked_again(s.money);
    let one = staked_again(s.others[0]);
    let other = staked_again(s.others[1]);
    Seat {
        money: seated,
        others: [one, other],
        hands: SeatHands {
            places,
            many: s.hands.many + 1,
        },
        first: first_of(s, first),
    }
}

// What the split of that seat moves: two cards are drawn, the first to the parent.
fn split_moved(t: &Table, turn: HandInTurn) -> Moved
    requires { Splits t.now turn }
    ensures table { moved_table t.now turn.guest.seat result ≡ split_effect t.now turn.guest.seat }
    ensures hand { result.hand ≡ waiting_place_of t.now turn.guest.seat }
{
    let s = *guest_seat(t, turn.guest);
    let first = card_ahead(&t.shoe.order, t.shoe.drawn, 0);
    let second = card_ahead(&t.shoe.order, t.shoe.drawn, 1);
    Moved {
        tray: t.tray,
        seat: split_seat(s, turn.place, turn.in_seat.hand, first, second),
        drawn: t.shoe.drawn + 2,
        hand: turn.place,
    }
}

// Behind the conditions in turn: 19 no pair, 20 the seat's hands are used up, 15 a guest's purse is below the stake, 18 fewer than two cards are left.
fn check_split(t: &Whole, at: At) -> Result<HandInTurn, Refusal>
    ensures { TurnChecked (split_conditions t.now at.seat at.position) t.now at result }
{
    let turn = hand_in_turn(t, at)?;
    let t = t.table();
    first_refusal(&[
        (Refusal::NoPair, !is_pair(turn.in_seat.hand.hand)),
        (
            Refusal::HandsUsedUp,
            usize::from(t.options.hands) <= turn.in_seat.many,
        ),
        (Refusal::ShortPurse, purse_short(*guest_seat(t, turn.guest))),
        (Refusal::NoCards, cards_left(*t) < 2),
    ])
    .and(Ok(turn))
}

pub fn split(t: &Whole, at: At) -> Result<Moved, Refusal>
    ensures same { moved_outcome t.now at.seat result ≡ outcome (split_conditions t.now at.seat at.position) (split_effect t.now at.seat) t.now }
    ensures told { Told t.now at.seat result }
{
    let turn = check_split(t, at)?;
    Ok(split_moved(t.table(), turn))
}
