// What a word stands for: an amount, a seat with its position, cards.
use call::At;
use script::number;

// The number that one to sixteen digits write: more than all the money that there can be.
pub(crate) fn amount_in(word: &[u8]) -> Option<u64> {
    if !matches!(word.len(), 1..=16) || !word.iter().all(|letter| letter.is_ascii_digit()) {
        return None;
    }
    Some(number(word))
}

// The same below 256.
fn small_in(word: &[u8]) -> Option<u8> {
    u8::try_from(amount_in(word)?).ok()
}

// A seat, and behind a point the position there; without one it is the seated guest.
pub(crate) fn guest_in(word: &[u8]) -> Option<At> {
    let mut parts = word.splitn(2, |letter| *letter == b'.');
    let seat = small_in(parts.next()?)?;
    let position = match parts.next() {
        Some(part) => small_in(part)?,
        None => 0,
    };
    Some(At { seat, position })
}

// A rank, and a suit behind it.
fn is_card(letters: &[u8]) -> bool {
    matches!(
        letters,
        [b'A' | b'2'..=b'9' | b'T' | b'J' | b'Q' | b'K', b'a'..=b'd']
    )
}

// Whether the letters name at most 64 cards, two letters each.
pub(crate) fn are_cards(letters: &[u8]) -> bool {
    letters.len() <= 128 && letters.chunks(2).all(is_card)
}
