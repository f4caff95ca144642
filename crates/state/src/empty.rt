// The values of an empty table: options of 0, which no table opens with, and a seat with no money and no hand.
ghost use Rattle.std.specs.Prelude.{◌≡◌};
ghost use Rattle.options.specs.Ranges.{no_options};
ghost use Rattle.table.specs.Seat.{empty_seat};

use cards::hand::empty_hand;
use options::Options;
use rules::seat_hand::{DEALT, NOT_ENDED, SeatHand, SeatHands};
use table::{Money, Seat};

pub fn no_options() -> Options
    ensures { result ≡ no_options }
{
    Options {
        seats: 0,
        decks: 0,
        first: 0,
        later: 0,
        hands: 0,
        aces: 0,
        double: 0,
        limit: 0,
        insurance: 0,
        five: 0,
        prize: 0,
        device: 0,
        decider: 0,
        cut: 0,
        smallest: 0,
        largest: 0,
    }
}

pub fn empty_seat() -> Seat
    ensures { result ≡ empty_seat }
{
    let place = SeatHand {
        hand: empty_hand(),
        origin: DEALT,
        ended: NOT_ENDED,
    };
    let money = Money {
        purse: 0,
        stake: 0,
        insurance: 0,
        sides: [0u32; 4],
    };
    Seat {
        money,
        others: [money; 2],
        hands: SeatHands {
            places: [place; 4],
            many: 0,
        },
        first: [0u8; 3],
    }
}
