// Hands of any table value (docs/BROKEN.md, 4): 2 to 20 cards that could have been played, and an origin and an ending that fit them, their seat's
// number of hands and the up card.
ghost use Rattle.std.specs.Prelude.{◌≡◌, ◌<◌, length};
ghost use Rattle.cards.specs.Hand.{cards_of};
ghost use Rattle.cards.specs.Length.{could_be_played};
ghost use Rattle.rules.specs.SeatHand.{played_of};
ghost use Rattle.broken.specs.Aids.LookedAt.{LookedAt};
ghost use Rattle.table.specs.Broken.{sound_origin, sound_double, sound_surrender, sound_ending, sound_hand};

use cards::card::is_ace;
use cards::hand::Hand;
use cards::total::{low_sum, total};
use options::Options;
use payment::prize::prize;
use payment::wager::wager;
use rules::open_calls::{even_open, five_open};
use rules::seat_hand::{
    BY_DOUBLE, BY_EVEN, BY_FIVE, BY_STAND, BY_SURRENDER, DEALT, HandInSeat, SPLIT, SPLIT_ACES,
    SeatHand, SeatHands,
};

// Of twelve cards or more, the low sum is above their number.
#[tactic(auto, unfolding(cards::specs::Length::could_be_played))]
fn could_be_played(h: Hand) -> bool
    ensures { result ≡ could_be_played (cards_of h) }
{
    let n = h.held_cards().len();
    n < 12 || n < (low_sum(h) as usize)
}

// A seat's only hand was dealt, any other comes from a split, of aces where its first card is one. It asks that there is a first card.
#[tactic(auto, unfolding(table::specs::Broken::sound_origin))]
fn sound_origin(h: HandInSeat) -> bool
    requires { 0 < h.hand.hand.count }
    ensures { result ≡ sound_origin h.many (played_of h.hand) }
{
    let HandInSeat { many, hand, .. } = h;
    let origin = if many == 1 {
        DEALT
    } else if is_ace(hand.hand.cards[0]) {
        SPLIT_ACES
    } else {
        SPLIT
    };
    hand.origin == origin
}

// A doubled hand has three cards, is not from split aces, and its first two permitted the double.
#[tactic(auto, unfolding(table::specs::Broken::sound_double))]
fn sound_double(o: Options, h: SeatHand) -> bool
    ensures { result ≡ sound_double o (played_of h) }
{
    if h.hand.count != 3 || h.origin == SPLIT_ACES {
        return false;
    }
    let two = Hand { count: 2, ..h.hand };
    let sum = total(two);
    sum < 21 && (o.double == 1 || sum == 11)
}

// A surrendered hand is its seat's only one, of two cards, against no ace.
#[tactic(auto, unfolding(rules::specs::SeatHand::has_two_cards, table::specs::Broken::sound_surrender))]
fn sound_surrender(h: HandInSeat) -> bool
    ensures { result ≡ sound_surrender h.up h.many (played_of h.hand) }
{
    h.many == 1 && (h.hand.hand.held_cards().len() == 2 && !is_ace(h.up))
}

// Even and five only where they are open; what is not ended by a decision, or by stand, fits every hand.
#[tactic(auto, unfolding(table::specs::Broken::sound_ending))]
fn sound_ending(o: Options, h: HandInSeat) -> bool
    ensures { result ≡ sound_ending o h.up h.many (played_of h.hand) }
{
    let HandInSeat { up, hand, .. } = h;
    match hand.ended {
        BY_DOUBLE => sound_double(o, hand),
        BY_SURRENDER => sound_surrender(h),
        BY_EVEN => even_open(up, hand),
        BY_FIVE => five_open(o, up, hand),
        ended => ended <= BY_STAND,
    }
}

#[tactic(auto, unfolding(table::specs::Broken::sound_hand))]
fn sound_hand(o: Options, h: HandInSeat) -> bool
    ensures { result ≡ sound_hand o h.up h.many h.hand }
{
    let cards = h.hand.hand;
    2 <= cards.count
        && (cards.count <= 20
            && (could_be_played(cards) && (sound_origin(h) && sound_ending(o, h))))
}

// What a look at a seat's hands gives: whether all in use are sound, and their wagers and prizes. A flag beside the sums and no Option: a guest's sums are made of these
// whether the hands are sound or not, and it is asked behind them; with an Option the sums of unsound hands would be asked for again.
#[derive(Clone, Copy)]
pub(crate) struct Looked {
    pub(crate) sound: bool,
    pub(crate) wagers: u64,
    pub(crate) prizes: u64,
}

// A seat's hands have four places, as their type says: behind a reference this has to be handed on as a fact.
fn hands_shape(s: SeatHands)
    ensures { length s.places ≡ 4 }
{}

// The hands in use, of a guest of that stake, in one pass. They are lent: over a copy of them the bench takes 74 instructions a call more.
pub(crate) fn looked_at(o: Options, up: u8, stake: u32, s: &SeatHands) -> Looked
    ensures { LookedAt o up stake s.now result }
{
    hands_shape(*s);
    let mut sound = true;
    let mut wagers = 0;
    let mut prizes = 0;
    for h in s.in_use() {
        let in_seat = HandInSeat {
            up,
            many: s.many as usize,
            hand: *h,
        };
        sound = sound & sound_hand(o, in_seat);
        wagers += wager(stake, *h);
        prizes += prize(o, stake, *h);
    }
    Looked {
        sound,
        wagers,
        prizes,
    }
}
