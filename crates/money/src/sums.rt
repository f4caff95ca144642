// The money of all guests of all seats, summed in one pass. Every table is taken: a damaged purse is cut before it is added, so no sum wraps.
ghost use Rattle.std.specs.Prelude.{◌≡◌};
ghost use Rattle.lists.specs.Sum.{sum_of};
ghost use Rattle.rules.specs.SeatHand.{hands_of};
ghost use Rattle.payment.specs.Wager.{wager as wager_of};
ghost use Rattle.table.specs.Seat.{with_money, stake as stake_of, purse as purse_of, laid as laid_of, seat_cover};
ghost use Rattle.money.specs.Sums.{make_sums, no_sums, capped, guest_sums, seat_sums, plus_sums, table_sums};
ghost use Rattle.money.specs.SumsFit.{SumsFit};

use crate::seat_money::{laid_with, wagers, won};
use options::Options;
use payment::cover::{cover, side_cover};
use state::seat::{no_money, nobody_beside};
use state::shape::places_shape;
use table::{Money, Seat, Table};

// All money on a table is at most 10^15.
pub(crate) const MOST_MONEY: u64 = 1000000000000000;

// The stakes of guests, what they have laid, their prizes, what the tray must hold for them, and what is in their purses.
#[derive(Clone, Copy)]
pub struct Sums {
    pub stakes: u64,
    pub laid: u64,
    pub prizes: u64,
    pub cover: u64,
    pub purses: u64,
}

// A purse past the limit counts as one past it: that is all that a test of the limit needs.
fn cut(purse: u64) -> u64
    ensures { result ≡ capped purse }
{
    purse.min(MOST_MONEY + 1)
}

// The sums of nobody.
pub fn no_sums() -> Sums
    ensures { result ≡ no_sums }
{
    Sums {
        stakes: 0,
        laid: 0,
        prizes: 0,
        cover: 0,
        purses: 0,
    }
}

// The sums of a guest who has nothing but a purse.
pub fn purse_sums(purse: u64) -> Sums
    ensures { result ≡ make_sums 0 0 0 0 (capped purse) }
{
    Sums {
        stakes: 0,
        laid: 0,
        prizes: 0,
        cover: 0,
        purses: cut(purse),
    }
}

// The sums of one guest whose hands' wagers and prizes are known. Apart from `money_sums`, since `broken` knows both of a guest alone; put into the pass that tests every table.
#[inline(always)]
pub fn played_sums(s: Seat, wagers: u64, prizes: u64) -> Sums
    requires { wagers ≡ sum_of (wager_of (stake_of s)) (hands_of s.hands) }
    ensures { result ≡ make_sums (stake_of s) (laid_of s) prizes (seat_cover s) (capped (purse_of s)) }
{
    Sums {
        stakes: s.money.stake as u64,
        laid: laid_with(s, wagers),
        prizes,
        cover: cover(s.money.stake) + side_cover(s.money.sides),
        purses: cut(s.money.purse),
    }
}

// The sums of the guest with that money at a seat that is lent: nothing but the money is read of a copy.
#[inline(always)]
pub fn money_sums(o: Options, m: Money, s: &Seat) -> Sums
    ensures same { result ≡ guest_sums o (with_money s.now m) }
    ensures small { SumsFit 1 result }
{
    places_shape(&s.hands.places);
    let wagers = wagers(m.stake, &s.hands);
    let prizes = won(o, m.stake, &s.hands);
    played_sums(Seat { money: m, ..*s }, wagers, prizes)
}

// The sums of one guest.
pub fn guest_sums(o: Options, s: Seat) -> Sums
    ensures same { result ≡ guest_sums o s }
    ensures small { SumsFit 1 result }
{
    money_sums(o, s.money, &s)
}

// The sums of two groups of guests together. Public for passes over the 27 alone: so it asks that both are sums of at most 27.
// Here and below `SumsFit` is asked for by number: each adds to the sums of as many guests as there can be before it, another number each, which a type would have to hold and each would ask for again.
pub fn plus(a: Sums, b: Sums) -> Sums
    requires left { SumsFit 27 a }
    requires right { SumsFit 27 b }
    ensures { result ≡ plus_sums a b }
{
    Sums {
        stakes: a.stakes + b.stakes,
        laid: a.laid + b.laid,
        prizes: a.prizes + b.prizes,
        cover: a.cover + b.cover,
        purses: a.purses + b.purses,
    }
}

// The sums with those of one guest more.
fn with_guest_sums(all: Sums, o: Options, s: Seat) -> Sums
    requires { SumsFit 26 all }
    ensures same { result ≡ plus_sums all (guest_sums o s) }
    ensures small { SumsFit 1 (guest_sums o s) }
{
    plus(all, guest_sums(o, s))
}

// The same for a guest with that money beside the seated one; one who has nothing is passed over.
fn with_other_sums(all: Sums, o: Options, s: Seat, m: Money) -> Sums
    requires { SumsFit 26 all }
    ensures same { result ≡ plus_sums all (guest_sums o (with_money s m)) }
    ensures small { SumsFit 1 (guest_sums o (with_money s m)) }
{
    if no_money(m) {
        all
    } else {
        with_guest_sums(all, o, Seat { money: m, ..s })
    }
}

// The sums with those of one seat more.
fn with_seat_sums(all: Sums, o: Options, s: &Seat) -> Sums
    requires { SumsFit 24 all }
    ensures same { result ≡ plus_sums all (seat_sums o s.now) }
    ensures small { SumsFit 3 (seat_sums o s.now) }
{
    let seated = with_guest_sums(all, o, *s);
    if nobody_beside(s.others) {
        return seated;
    }
    let two = with_other_sums(seated, o, *s, s.others[0]);
    with_other_sums(two, o, *s, s.others[1])
}

// The sums of all nine seats.
pub fn table_sums(t: Table) -> Sums
    ensures { result ≡ table_sums t }
{
    let mut all = no_sums();
    for s in &t.seats {
        all = with_seat_sums(all, t.options, s);
    }
    all
}
