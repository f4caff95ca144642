// What an example is made of, as the table writes it. At 0 stands the letter of the rule, at 2 that of the house, at 4 the up card, at 7 how
// many hands the seat has, at 9 where the hand comes from, at 11 how it ended, at 16 its cards, at 30 the bank's, at 44 the words.
// Where a seat is asked, its four places stand at 16, 23, 30 and 37, and how each ended at 11 to 14.
use cards::hand::{Hand, empty_hand, with_card};
use options::Options;
use rules::seat_hand::{SeatHand, SeatHands};
use script::{card, digit};

#[derive(Clone, Copy)]
pub(crate) struct Example<'a> {
    front: &'a [u8; 44],
    pub(crate) words: &'a [u8],
}

impl<'a> Example<'a> {
    // A line that is too short is no example.
    pub(crate) fn read(line: &'a [u8]) -> Option<Self> {
        let (front, words) = line.split_first_chunk::<44>()?;
        Some(Example { front, words })
    }

    pub(crate) fn rule(&self) -> u8 {
        self.front[0]
    }

    // Six seats, one deck, four hands; aces split again (a: not), any double (d: only on 11), limited loss (l: not), five (f: not)
    // and prize (p: not). The rules stand below the engine, so the house of crate `stage` is not theirs to begin with.
    pub(crate) fn house(&self) -> Options {
        let letter = self.front[2];
        Options {
            seats: 6,
            decks: 1,
            first: 1,
            later: 0,
            hands: 4,
            aces: u8::from(letter != b'a'),
            double: if letter == b'd' { 2 } else { 1 },
            limit: u8::from(letter != b'l'),
            insurance: 1,
            five: u8::from(letter != b'f'),
            prize: u8::from(letter != b'p'),
            device: 1,
            decider: 1,
            cut: 0,
            smallest: 2,
            largest: 100,
        }
    }

    pub(crate) fn up(&self) -> u8 {
        card(self.front[4], self.front[5])
    }

    pub(crate) fn many(&self) -> u8 {
        digit(self.front[7])
    }

    // The hand of a seat that stands alone in its row.
    pub(crate) fn hand(&self) -> SeatHand {
        let front = self.front;
        seat_hand(&front[16..30], front[9], front[11])
    }

    pub(crate) fn bank(&self) -> Hand {
        let front = self.front;
        hand_of(&front[30..44])
    }

    // The four places of a seat.
    pub(crate) fn seat(&self) -> SeatHands {
        let front = self.front;
        let origin = front[9];
        SeatHands {
            places: [
                seat_hand(&front[16..23], origin, front[11]),
                seat_hand(&front[23..30], origin, front[12]),
                seat_hand(&front[30..37], origin, front[13]),
                seat_hand(&front[37..44], origin, front[14]),
            ],
            many: self.many(),
        }
    }
}

// The hand of the cards that stand two letters each; a pair that begins with a space is none.
fn hand_of(letters: &[u8]) -> Hand {
    let mut hand = empty_hand();
    for pair in letters.chunks_exact(2) {
        if let [first, second] = pair
            && *first != b' '
        {
            hand = with_card(hand, card(*first, *second));
        }
    }
    hand
}

// The codes are the bytes of the hand.
fn seat_hand(letters: &[u8], origin: u8, ended: u8) -> SeatHand {
    SeatHand {
        hand: hand_of(letters),
        origin: digit(origin),
        ended: digit(ended),
    }
}
