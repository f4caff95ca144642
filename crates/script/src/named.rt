// The cards that letters name, two letters each.
ghost use Rattle.std.specs.Prelude.{◌≡◌, min, ◌/◌, length, take};
ghost use Rattle.script.specs.Named.{card_at, cards_below};
ghost use Rattle.script.specs.Begun.{begun};

use crate::card;
use crate::orders::{Order, begun_order};

// The card that has this place among them; the first of all behind the last letter.
fn card_at(letters: &[u8], place: usize) -> u8
    ensures { result ≡ card_at letters.now place }
{
    if letters.len() / 2 <= place {
        return 0;
    }
    card(letters[2 * place], letters[2 * place + 1])
}

// At most 64 cards.
pub fn cards_named(letters: &[u8]) -> [u8; 64]
    ensures { result ≡ cards_below letters.now 64 }
{
    // A loop over the places: `array::from_fn` says of each element only that some state of the closure gave it.
    let mut cards = [0u8; 64];
    for i in 0usize..64 {
        cards[i] = card_at(letters, i);
    }
    cards
}

// How many they are.
pub fn many_named(letters: &[u8]) -> usize
    ensures { result ≡ min (length letters.now / 2) 64 }
{
    (letters.len() / 2).min(64)
}

// The order of these decks that begins with the cards that the letters name.
pub fn order_named(letters: &[u8], decks: u8) -> Order
    ensures { result ≡ begun (take (min (length letters.now / 2) 64) (cards_below letters.now 64)) decks }
{
    let cards = cards_named(letters);
    begun_order(&cards[..many_named(letters)], decks)
}
