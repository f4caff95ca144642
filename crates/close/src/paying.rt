// What goes back at close (document 01, "Payment"): to each guest for the hands, the insurance and the side stakes, and to all. Every table is taken.
ghost use Rattle.std.specs.Prelude.{◌≡◌, ◌≤◌, cond, take};
ghost use Rattle.lists.specs.Sum.{sum_of};
ghost use Rattle.payment.specs.Pays.{side_pays, back_of};
ghost use Rattle.rules.specs.SeatHand.{hands_of};
ghost use Rattle.payment.specs.HandPay.{hand_pay};
ghost use Rattle.payment.specs.SidePay.{side_pay};
ghost use Rattle.table.specs.Seat.{with_money, over_guests};
ghost use Rattle.close_spec.specs.Close.{guest_back};

use options::Options;
use payment::bank::Score;
use payment::hand_pay::hand_pay;
use payment::insurance::insurance_pay;
use payment::side_pay::side_pay;
use rules::seat_hand::SeatHands;
use state::seat::no_money;
use table::{Money, Seat};

// What a payment goes by: the table's options and the bank's score.
#[derive(Clone, Copy)]
pub(crate) struct Payment {
    pub(crate) options: Options,
    pub(crate) bank: Score,
}

// What goes back for a side stake: at most 5001 times as much.
// The kind is a byte, 1 to 4, as a call has it. `split` is a fact of the hands, worked out once for all four kinds, and no choice of the caller's.
fn side_back(kind: u8, stake: u32, first: [u8; 3], split: bool) -> u64
    ensures same { result ≡ (side_pay kind stake (take (cond split 3 2) first)).back }
    ensures small { result ≤ 21479131447296 }
{
    let pay = side_pay(kind, stake, first, split);
    pay.back
}

// What goes back for the side stakes, by kind: at most 2^47.
fn sides_back(sides: [u32; 4], first: [u8; 3], split: bool) -> u64
    ensures same { result ≡ back_of (side_pays sides (take (cond split 3 2) first)) }
    ensures small { result ≤ 140737488355328 }
{
    let pair = side_back(1, sides[0], first, split);
    let sevens = side_back(2, sides[1], first, split);
    let more = side_back(3, sides[2], first, split);
    let less = side_back(4, sides[3], first, split);
    pair + sevens + more + less
}

impl Payment {
    // What goes back for the hands in use: at most 16 stakes, so at most 2^36.
    fn hands_back(&self, stake: u32, hands: SeatHands) -> u64
        ensures same { result ≡ sum_of (λ h. (hand_pay self.now.options self.now.bank stake h).back) (hands_of hands) }
        ensures small { result ≤ 68719476736 }
    {
        hands
            .in_use()
            .iter()
            .map(|h| hand_pay(self.options, self.bank, stake, *h).back)
            .sum()
    }

    // What goes back to a guest: at most 16 stakes, three times the insurance, and what goes back for the side stakes.
    pub(crate) fn guest_back(&self, s: Seat) -> u64
        ensures same { result ≡ guest_back self.now.options self.now.bank s }
        ensures small { result ≤ 140819092733952 }
    {
        let money = s.money;
        let hands = s.hands;
        let insured = insurance_pay(self.bank, money.insurance);
        let sides = money.sides;
        let first = s.first;
        let beside = sides_back(sides, first, hands.many != 1);
        self.hands_back(money.stake, hands) + insured.back + beside
    }

    // The same for a guest beside the seated one, who has this money; one who has nothing is passed over.
    fn other_back(&self, s: Seat, m: Money) -> u64
        ensures same { result ≡ guest_back self.now.options self.now.bank (with_money s m) }
        ensures small { result ≤ 140819092733952 }
    {
        if no_money(m) {
            return 0;
        }
        self.guest_back(Seat { money: m, ..s })
    }

    // What goes back to the guests of a seat.
    fn seat_back(&self, s: Seat) -> u64
        ensures same { result ≡ over_guests (guest_back self.now.options self.now.bank) s }
        ensures small { result ≤ 422457278201856 }
    {
        self.guest_back(s) + self.other_back(s, s.others[0]) + self.other_back(s, s.others[1])
    }

    // What goes back to all.
    pub(crate) fn seats_back(&self, seats: &[Seat; 9]) -> u64
        ensures { result ≡ sum_of (over_guests (guest_back self.now.options self.now.bank)) seats.now }
    {
        let mut all: u64 = 0;
        for s in seats {
            all += self.seat_back(*s);
        }
        all
    }
}
