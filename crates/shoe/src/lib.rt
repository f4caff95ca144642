// Cards of the shoe (document 01, "The seventeen calls"): those ahead, so many drawn, all drawn ones as discards, and the new shoe of a load.
#![tactic(auto)]

ghost use Rattle.std.specs.Prelude.{◌≡◌, ◌+◌, ◌≤◌, length, get_or};
ghost use Rattle.table.specs.Shoe.{new_shoe, with_drawn, discard_drawn};
ghost use Rattle.shoe.specs.Aids.Empty.{no_cards};

use table::Shoe;

// The card n behind the next one of an order of which so much is drawn, or 0 past its end. The order is lent, so that a loop copies no shoe.
pub fn card_ahead(order: &[u8], drawn: usize, n: usize) -> u8
    ensures { result ≡ get_or order.now (drawn + n) 0 }
{
    order.get(drawn.saturating_add(n)).copied().unwrap_or(0)
}

// So many cards are drawn. Public for the calls alone, which draw only cards that are left: so it asks that the order has them.
pub fn with_drawn(sh: Shoe, n: usize) -> Shoe
    requires { sh.drawn + n ≤ 416 }
    ensures { result ≡ with_drawn sh n }
{
    let mut next = sh;
    next.drawn = sh.drawn + n;
    next
}

// All drawn cards are discards, in the order in which they were drawn. Public for the calls that end a round: it asks that the order has the cards.
pub fn discard_drawn(sh: Shoe) -> Shoe
    requires { sh.drawn ≤ 416 }
    ensures { result ≡ discard_drawn sh }
{
    let n = sh.drawn;
    let mut discards = sh.discards;
    discards[..n].copy_from_slice(&sh.order[..n]);
    Shoe {
        discards,
        discarded: n,
        ..sh
    }
}

// An array before any card is in it.
#[tactic(auto, unfolding(crate::specs::Aids::Empty::no_cards))]
fn no_cards() -> [u8; 416]
    ensures { result ≡ no_cards }
{
    [0u8; 416]
}

// The shoe that a load makes. Public for the load alone, which tests the length of its order first: so it asks that the array has room for it.
pub fn new_shoe(order: &[u8], begun: u8) -> Shoe
    requires { length order.now ≤ 416 }
    ensures { result ≡ new_shoe begun order.now }
{
    let mut cards = no_cards();
    cards[..order.len()].copy_from_slice(order);
    Shoe {
        order: cards,
        drawn: 0,
        discards: no_cards(),
        discarded: 0,
        begun,
    }
}
