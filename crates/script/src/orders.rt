// Orders that begin with cards of one's choice: the other faces follow, rising, so that each comes as often as there are decks.
ghost use Rattle.std.specs.Prelude.{◌≡◌, min, take};
ghost use Rattle.lists.specs.Sum.{count_of};
ghost use Rattle.script.specs.Begun.{empty_order, placed, placed_all, placed_face, begun};

use std::iter;

// Cards together with their number, in an array as long as the longest order: so making one takes no memory that may run out.
#[derive(Clone, Copy)]
pub struct Order {
    pub cards: [u8; 416],
    pub count: usize,
}

impl Order {
    // The cards that are lent to an opening or a load.
    pub fn as_slice(&self) -> &[u8]
        ensures { result.now ≡ take (min self.now.count 416) self.now.cards }
    {
        &self.cards[..lent(self.count)]
    }
}

// No card.
fn empty_order() -> Order
    ensures { result ≡ empty_order }
{
    Order {
        cards: [0u8; 416],
        count: 0,
    }
}

// One card more behind the others, or unchanged where there are 416.
fn with_next(o: Order, card: u8) -> Order
    ensures { result ≡ placed o card }
{
    let at = o.count;
    if 416 <= at {
        return o;
    }
    let mut next = o;
    next.cards[at] = card;
    next.count = at + 1;
    next
}

// The cards one after the other.
fn placed_cards(cards: &[u8]) -> Order
    ensures { result ≡ placed_all empty_order cards.now }
{
    cards.iter().copied().fold(empty_order(), with_next)
}

// How often a face is among the cards.
fn seen(cards: &[u8], face: u8) -> usize
    ensures { result ≡ count_of face cards.now }
{
    cards.iter().filter(|card| **card == face).count()
}

// The face as often as it is still to come.
fn with_face(o: Order, face: u8, decks: usize, used: usize) -> Order
    ensures { result ≡ placed_face o face decks used }
{
    iter::repeat_n(face, decks.saturating_sub(used)).fold(o, with_next)
}

// The order of these decks that begins with these cards.
pub fn begun_order(first: &[u8], decks: u8) -> Order
    ensures { result ≡ begun first.now decks }
{
    let mut next = placed_cards(first);
    // The faces' numbers are what is put in.
    for face in 0u8..52 {
        next = with_face(next, face, decks as usize, seen(first, face));
    }
    next
}

// How many cards of an order are lent: its count, and 416 where a damaged count says more.
pub fn lent(count: usize) -> usize
    ensures { result ≡ min count 416 }
{
    count.min(416)
}
