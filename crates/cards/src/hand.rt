// The hand: its cards together with their number. A count past the array is read as twenty, here and in the definitions.
ghost use Rattle.std.specs.Prelude.{◌≡◌, min};
ghost use Rattle.cards.specs.Hand.{cards_of, empty_hand, with_card};

#[repr(C)]
#[derive(Clone, Copy)]
pub struct Hand {
    pub cards: [u8; 20],
    // An array with its number and no Vec: a table is of fixed size, and C reads it.
    pub count: u8,
}

impl Hand {
    // The cards that the hand holds, without those behind them in its array.
    pub fn held_cards(&self) -> &[u8]
        ensures { result.now ≡ cards_of self.now }
    {
        &self.cards[..held(*self)]
    }
}

// A hand with no card.
pub fn empty_hand() -> Hand
    ensures { result ≡ empty_hand }
{
    Hand {
        cards: [0u8; 20],
        count: 0,
    }
}

// The hand with one card more, or unchanged where it has twenty.
#[tactic(auto, unfolding(crate::specs::Hand::with_card))]
pub fn with_card(h: Hand, card: u8) -> Hand
    ensures { result ≡ with_card h card }
{
    let at = h.count as usize;
    if 20 <= at {
        return h;
    }
    let mut next = h;
    next.cards[at] = card;
    next.count = h.count + 1;
    next
}

// How many cards of the array the hand holds: its count, and twenty where a damaged count says more.
pub fn held(h: Hand) -> usize
    ensures { result ≡ min h.count 20 }
{
    (h.count as usize).min(20)
}
