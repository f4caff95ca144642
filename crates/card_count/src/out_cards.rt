// The cards of a table, counted part by part. Each function gives the number of cards that it counted.
ghost use Rattle.std.specs.Prelude.{◌++◌};
ghost use Rattle.lists.specs.Flat.{flat};
ghost use Rattle.cards.specs.Hand.{cards_of};
ghost use Rattle.rules.specs.SeatHand.{hands_of};
ghost use Rattle.table.specs.Table.{hand_cards, bank_cards};
ghost use Rattle.card_count.specs.Aids.Counted.{Counted};

use crate::counters::count;
use cards::hand::Hand;
use rules::seat_hand::SeatHands;
use table::Table;

// A hand's cards.
pub(crate) fn count_hand(of: &mut [u16; 256], h: Hand) -> usize
    ensures { Counted of.old of.new (cards_of h) result 20 }
{
    let cards = h.held_cards();
    count(of, cards);
    cards.len()
}

// The cards of a seat's hands.
pub fn count_seat(of: &mut [u16; 256], s: SeatHands) -> usize
    ensures { Counted of.old of.new (flat (λ h. h.cards) (hands_of s)) result 80 }
{
    let mut many = 0;
    for h in s.in_use() {
        many += count_hand(of, h.hand);
    }
    many
}

// The cards of all seats' hands. A seat without a hand is passed over.
pub(crate) fn count_seats(of: &mut [u16; 256], t: Table) -> usize
    ensures { Counted of.old of.new (hand_cards t) result 720 }
{
    let mut many = 0;
    for s in &t.seats {
        if s.hands.many != 0 {
            many += count_seat(of, s.hands);
        }
    }
    many
}

// The cards in hands and with the bank.
pub(crate) fn count_in_play(of: &mut [u16; 256], t: Table) -> usize
    ensures { Counted of.old of.new (hand_cards t ++ bank_cards t) result 740 }
{
    let hands = count_seats(of, t);
    hands + count_hand(of, t.bank)
}
