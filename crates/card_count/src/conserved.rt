// Whether the cards of a table are those of its order (docs/BROKEN.md, 2 and 3): the order is valid, the discards are its first drawn cards, and what
// is out is what was drawn. The cards that are left and the discards are counted once; with the other drawn cards, and with those in hands and with
// the bank, each face has to be there as often as there are decks. The caller lends the counters, and counts the cards in hands between the two tests.
// Every table is taken, a damaged one too.
ghost use Rattle.std.specs.Prelude.{◌≡◌, true, ◌&&◌, ◌*◌, ◌≤◌, eqb, length, get_or, take};
ghost use Rattle.lists.specs.Below.{all_below};
ghost use Rattle.table.specs.Shoe.{valid_order};
ghost use Rattle.table.specs.Broken.{sound_shoe, sound_discards, sound_faces};
ghost use Rattle.card_count.specs.Aids.Counters.{no_counts};
ghost use Rattle.card_count.specs.Aids.Left.{OrderFits, Left, OfValid, WithHands};

use crate::counters::{count, each_face};
use crate::out_cards::{count_hand, count_seats};
use table::{Shoe, Table};

// Whether the discards are the first cards of the order.
fn discards_first(sh: &Shoe) -> bool
    requires { sh.now.discarded ≤ 416 }
    ensures { result ≡ all_below (λ k. eqb (get_or sh.now.discards k 0) (get_or sh.now.order k 0)) sh.now.discarded }
{
    sh.discards[..sh.discarded] == sh.order[..sh.discarded]
}

// The cards that are left and the first ones, as many as there are discards, counted.
fn count_left(of: &mut [u16; 256], decks: u8, sh: &Shoe)
    requires none { of.old ≡ no_counts }
    requires fits { OrderFits decks sh.now.order sh.now.drawn sh.now.discarded }
    ensures { Left of.new decks sh.now.order sh.now.drawn sh.now.discarded }
{
    let all = 52 * (decks as usize);
    count(of, &sh.order[sh.drawn..all]);
    count(of, &sh.order[..sh.discarded]);
}

// Whether the order is valid: its other drawn cards are counted beside those, in a copy of the counters.
fn order_valid(left: &[u16; 256], decks: u8, sh: &Shoe) -> bool
    requires { Left left.now decks sh.now.order sh.now.drawn sh.now.discarded }
    ensures { result ≡ valid_order decks (take (52 * decks) sh.now.order) }
{
    let mut of = *left;
    count(&mut of, &sh.order[sh.discarded..sh.drawn]);
    each_face(&of, decks as u16)
}

// An array has the length that its type says: behind the table's reference this has to be handed on as a fact.
fn cards_shape(cards: &[u8; 416])
    ensures { length cards.now ≡ 416 }
{}

// Whether the order is valid, at most all of it is drawn, and the discards are its first drawn cards. The counters then hold the cards that are left and
// the discards.
pub fn order_sound(of: &mut [u16; 256], t: &Table) -> bool
    requires { of.old ≡ no_counts }
    ensures tests { result ≡ (sound_shoe t.now && sound_discards t.now) }
    ensures counters { result ≡ true → OfValid of.new t.now }
{
    let decks = t.options.decks;
    let shoe = &t.shoe;
    cards_shape(&shoe.order);
    cards_shape(&shoe.discards);
    let all = 52 * (decks as usize);
    if 416 < all {
        return false;
    }
    if all < shoe.drawn {
        return false;
    }
    if shoe.drawn < shoe.discarded {
        return false;
    }
    if !discards_first(shoe) {
        return false;
    }
    count_left(of, decks, shoe);
    order_valid(of, decks, shoe)
}

// Of a valid order, whether what is out is what was drawn. The counters hold the cards in hands beside those, `hands` of them; the bank's are counted here.
pub fn out_is_drawn(of: &mut [u16; 256], t: &Table, hands: usize) -> bool
    requires { WithHands of.old t.now hands }
    ensures { result ≡ sound_faces t.now }
{
    let many = hands + count_hand(of, t.bank);
    if many + t.shoe.discarded != t.shoe.drawn {
        return false;
    }
    each_face(of, t.options.decks as u16)
}

// All three tests, of a table alone: the order is valid, the discards are its first drawn cards, and what is out is what was drawn.
#[tactic(auto, unfolding(crate::specs::Aids::Counters::no_counts))]
pub fn cards_conserved(t: &Table) -> bool
    ensures { result ≡ (sound_shoe t.now && sound_discards t.now && sound_faces t.now) }
{
    let mut of = [0u16; 256];
    if !order_sound(&mut of, t) {
        return false;
    }
    let hands = count_seats(&mut of, *t);
    out_is_drawn(&mut of, t, hands)
}
