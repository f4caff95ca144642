// The seats at the end of a round (document 01, "The seventeen calls" and "Payment"): void and close leave each without stakes, insurance and hands,
// and differ only in its guests' purses.
ghost use Rattle.std.specs.Prelude.{◌≡◌, map};
ghost use Rattle.table.specs.Guest.{holding as holds};
ghost use Rattle.table.specs.Seat.{with_money};
ghost use Rattle.table.specs.Aids.WithSeats.{with_seats};
ghost use Rattle.table.specs.Aids.Sound.{Sound};
ghost use Rattle.close.specs.Aids.Ended.{options_of, Endable, AllEndable, ended_purse, ended_seat};

use crate::paying::Payment;
use money::seat_money::{laid, prizes};
use options::Options;
use state::empty::empty_seat;
use state::seat::no_money;
use table::{Money, Seat, Table};

// How a round ends: void gives back what was laid, close pays.
#[derive(Clone, Copy)]
pub(crate) enum Ending {
    Void(Options),
    Paid(Payment),
}

// Nothing but a purse.
fn holding(purse: u64) -> Money
    ensures { result ≡ holds purse }
{
    Money {
        purse,
        stake: 0,
        insurance: 0,
        sides: [0u32; 4],
    }
}

impl Ending {
    // The purse of a guest then: it gets back what was laid and returns the prizes, or gets what goes back. `Endable` is of an ending and a seat together, so the type of neither can say it; of all
    // guests of a seat it is `AllEndable`.
    fn purse(&self, s: Seat) -> u64
        requires { Endable self.now s }
        ensures { result ≡ ended_purse self.now s }
    {
        let money = s.money;
        match *self {
            Ending::Void(o) => money.purse + laid(s) - prizes(o, s),
            Ending::Paid(payment) => money.purse + payment.guest_back(s),
        }
    }

    // The same of a guest beside the seated one, who has this money; one who has nothing is passed over.
    // Here and below put into void and close, where the ending is known: else the room for the table is cleared as a whole, 6 % of a call.
    #[inline(always)]
    fn other_purse(&self, s: Seat, m: Money) -> u64
        requires { Endable self.now (with_money s m) }
        ensures { result ≡ ended_purse self.now (with_money s m) }
    {
        if no_money(m) {
            return 0;
        }
        self.purse(Seat { money: m, ..s })
    }

    // The seat then: its guests keep nothing but those purses.
    #[inline(always)]
    fn seat(&self, s: Seat) -> Seat
        requires { AllEndable self.now s }
        ensures { result ≡ ended_seat self.now s }
    {
        let seated = holding(self.purse(s));
        let one = holding(self.other_purse(s, s.others[0]));
        let other = holding(self.other_purse(s, s.others[1]));
        let others = [one, other];
        let mut next = empty_seat();
        next.money = seated;
        next.others = others;
        next
    }
}

// The table with every seat so. It asks for a sound table, whose purses can take what goes back.
#[inline(always)]
pub(crate) fn ended_seats(t: Table, ending: Ending) -> Table
    requires { Sound t × (options_of ending ≡ t.options) }
    ensures { result ≡ with_seats t (map (ended_seat ending) t.seats) }
{
    let mut next = t;
    for (i, s) in t.seats.iter().enumerate() {
        next.seats[i] = ending.seat(*s);
    }
    next
}
