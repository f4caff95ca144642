// The faces left of a pack: of whole decks without the up card, or of cards named one by one.

// Each face as often as there are decks, and the up card once less.
pub(crate) fn decks_less(decks: u8, up: u8) -> [u8; 52] {
    let mut left = [decks; 52];
    if up < 52 {
        left[up as usize] = decks.saturating_sub(1);
    }
    left
}

// Each face as often as it is named, up to 255; a card above 51 is none.
pub(crate) fn named(cards: &[u8]) -> [u8; 52] {
    let mut left = [0u8; 52];
    for card in cards {
        if *card < 52 {
            let face = *card as usize;
            left[face] = left[face].saturating_add(1);
        }
    }
    left
}
