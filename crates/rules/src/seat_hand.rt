// A seat's hand: its cards, where it comes from and how it ended; and a seat's hands in their places.
ghost use Rattle.std.specs.Prelude.{◌≡◌, min, take};
ghost use Rattle.rules.specs.SeatHand.{played_of, natural, has_two_cards};

use cards::hand::Hand;

// Where a hand comes from. Here and below bytes and no enum: a hand crosses the C interface, which may hand over any byte, and each has its answer.
pub const DEALT: u8 = 0;

pub const SPLIT: u8 = 1;

pub const SPLIT_ACES: u8 = 2;

// How a hand ended; only a decision sets this.
pub const NOT_ENDED: u8 = 0;

pub const BY_STAND: u8 = 1;

pub const BY_DOUBLE: u8 = 2;

pub const BY_SURRENDER: u8 = 3;

pub const BY_EVEN: u8 = 4;

pub const BY_FIVE: u8 = 5;

#[repr(C)]
#[derive(Clone, Copy)]
pub struct SeatHand {
    pub hand: Hand,
    pub origin: u8,
    pub ended: u8,
}

// Up to four hands by place, and how many there are.
#[repr(C)]
#[derive(Clone, Copy)]
pub struct SeatHands {
    pub places: [SeatHand; 4],
    // An array with its number, as a hand is.
    pub many: u8,
}

// A hand as the rules are asked of it: against the up card, in a seat of `many` hands. The bank's hand is no part of it.
#[derive(Clone, Copy)]
pub struct HandInSeat {
    pub up: u8,
    pub many: usize,
    pub hand: SeatHand,
}

impl SeatHands {
    // The hands in use by place, without what stands in the places behind them.
    pub fn in_use(&self) -> &[SeatHand]
        ensures { result.now ≡ take self.now.many self.now.places }
    {
        &self.places[..used(*self)]
    }
}

// How many of the four places the seat uses: its count, and four where a damaged count says more.
pub fn used(s: SeatHands) -> usize
    ensures { result ≡ min s.many 4 }
{
    (s.many as usize).min(4)
}

// Whether the hand has exactly two cards.
#[tactic(auto, unfolding(crate::specs::SeatHand::has_two_cards))]
pub(crate) fn has_two_cards(h: SeatHand) -> bool
    ensures { result ≡ has_two_cards (played_of h) }
{
    h.hand.held_cards().len() == 2
}

// Whether the hand is a natural: unsplit, two cards, an ace and a ten-value.
#[tactic(auto, unfolding(crate::specs::SeatHand::natural))]
pub fn is_natural(h: SeatHand) -> bool
    ensures { result ≡ natural (played_of h) }
{
    h.origin == DEALT && cards::natural::is_natural(h.hand)
}
