// Whether an order is valid, by counting its cards. Every order is taken.
ghost use Rattle.std.specs.Prelude.{◌≡◌};
ghost use Rattle.table.specs.Shoe.{valid_order};

use crate::counters::{count, each_face};

// Whether the order has 52 × decks cards, each face as often as there are decks: then there is no room for any other byte.
pub fn valid_order(decks: u8, order: &[u8]) -> bool
    ensures { result ≡ valid_order decks order.now }
{
    if order.len() != 52 * (decks as usize) {
        return false;
    }
    let mut of = [0u16; 256];
    count(&mut of, order);
    each_face(&of, decks as u16)
}
