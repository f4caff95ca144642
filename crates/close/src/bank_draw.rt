// The bank's cards at close: its burn, and cards while its total is 16 or less (document 01, "The seventeen calls", close; articles 4 and 6).
ghost use Rattle.std.specs.Prelude.{◌≡◌, ◌*◌, ◌≤◌};
ghost use Rattle.cards.specs.Hand.{cards_of};
ghost use Rattle.close_spec.specs.BankDraw.{bank_burn, bank_at_close};

use cards::hand::{Hand, with_card};
use options::Options;
use payment::bank::must_draw;
use shoe::card_ahead;
use state::round::cards_left;
use table::Table;

// How many cards are burnt before the bank's second card.
pub(crate) fn bank_burn(o: Options) -> usize
    ensures { result ≡ bank_burn o }
{
    if o.later == 2 { 1 } else { 0 }
}

// The bank's hand once it has drawn. It asks that the drawn part of the order lies within it, as a sound table's does.
pub(crate) fn bank_at_close(t: Table) -> Hand
    requires { (t.shoe.drawn ≤ 52 * t.options.decks) × (52 * t.options.decks ≤ 416) }
    ensures { cards_of result ≡ bank_at_close t }
{
    let shoe = t.shoe;
    let order = shoe.order;
    let left = cards_left(t);
    let burnt = bank_burn(t.options);
    let mut bank = t.bank;
    // Places and no slice of the order: where fewer cards are left than the burn takes there is no such slice, and the branch that asks this first is no plainer.
    for n in burnt..left {
        if !must_draw(bank) {
            return bank;
        }
        bank = with_card(bank, card_ahead(&order[..], shoe.drawn, n));
    }
    bank
}
