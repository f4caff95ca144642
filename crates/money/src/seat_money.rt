// What a seat has laid in this round, and its prizes. Every value is taken, a damaged count too.
ghost use Rattle.std.specs.Prelude.{◌≡◌, ◌≤◌};
ghost use Rattle.lists.specs.Sum.{sum_of};
ghost use Rattle.rules.specs.SeatHand.{hands_of};
ghost use Rattle.payment.specs.Bets.{all_sides};
ghost use Rattle.payment.specs.Prize.{prize as prize_of};
ghost use Rattle.payment.specs.Wager.{wager as wager_of};
ghost use Rattle.table.specs.Seat.{stake as stake_of, laid as laid_of, prizes as prizes_of};

use options::Options;
use payment::prize::prize;
use payment::wager::wager;
use rules::seat_hand::SeatHands;
use state::shape::places_shape;
use table::Seat;

// The wagers of the hands in use. Here and below the hands are lent: a table is tested with up to 27 guests, and a copy of the hands for each costs as much as the test.
pub(crate) fn wagers(stake: u32, hands: &SeatHands) -> u64
    ensures { result ≡ sum_of (wager_of stake) (hands_of hands.now) }
{
    places_shape(&hands.places);
    hands.in_use().iter().map(|h| wager(stake, *h)).sum()
}

// The side stakes of all kinds.
fn all_sides(sides: [u32; 4]) -> u64
    ensures same { result ≡ all_sides sides }
    ensures small { result ≤ 17179869184 }
{
    (sides[0] as u64) + (sides[1] as u64) + (sides[2] as u64) + (sides[3] as u64)
}

// The same where the wagers are known: the stake before the deal, after it the wagers and the insurance; and the side stakes.
pub(crate) fn laid_with(s: Seat, wagers: u64) -> u64
    requires { wagers ≡ sum_of (wager_of (stake_of s)) (hands_of s.hands) }
    ensures { result ≡ laid_of s }
{
    let beside = all_sides(s.money.sides);
    if s.hands.many == 0 {
        (s.money.stake as u64) + beside
    } else {
        wagers + (s.money.insurance as u64) + beside
    }
}

// What the seat has laid.
pub fn laid(s: Seat) -> u64
    ensures { result ≡ laid_of s }
{
    laid_with(s, wagers(s.money.stake, &s.hands))
}

// The prizes of the hands in use, of a guest of that stake.
pub(crate) fn won(o: Options, stake: u32, hands: &SeatHands) -> u64
    ensures { result ≡ sum_of (prize_of o stake) (hands_of hands.now) }
{
    places_shape(&hands.places);
    hands.in_use().iter().map(|h| prize(o, stake, *h)).sum()
}

// The prizes of the seat's hands.
#[tactic(auto, unfolding(table::specs::Seat::prizes))]
pub fn prizes(o: Options, s: Seat) -> u64
    ensures { result ≡ prizes_of o s }
{
    won(o, s.money.stake, &s.hands)
}
