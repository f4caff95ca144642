// The pay of a hand (document 01, "Payment"): the first rule that fits. Every stake of 32 bits and every hand is taken.
ghost use Rattle.std.specs.Prelude.{◌≡◌, ◌*◌, ◌≤◌};
ghost use Rattle.cards.specs.Hand.{cards_of};
ghost use Rattle.cards.specs.Total.{total as total_of};
ghost use Rattle.rules.specs.SeatHand.{played_of};
ghost use Rattle.payment.specs.HandPay.{by_totals, against_natural, against_bank, hand_pay};

use crate::bank::Score;
use crate::pay::Pay;
use crate::wager::wager;
use cards::total::total;
use options::Options;
use rules::seat_hand::{BY_DOUBLE, BY_EVEN, BY_FIVE, BY_SURRENDER, SeatHand, is_natural};
use std::cmp::Ordering;

// By totals, neither above 21.
#[tactic(auto, unfolding(crate::specs::HandPay::by_totals))]
fn by_totals(laid: u64, mine: u32, bank: u32) -> u64
    requires { (laid ≤ 8589934592) × (mine ≤ 21) × (bank ≤ 21) }
    ensures { result ≡ by_totals laid mine bank }
{
    match mine.cmp(&bank) {
        Ordering::Less => 0,
        Ordering::Equal => laid,
        Ordering::Greater => laid + laid,
    }
}

// A bank natural: all is lost, but a limited doubled loss is the stake.
#[tactic(auto, unfolding(crate::specs::HandPay::against_natural))]
fn against_natural(o: Options, stake: u32, laid: u64, h: SeatHand) -> u64
    requires { stake ≤ laid }
    ensures { result ≡ against_natural o stake laid (played_of h) }
{
    if h.ended == BY_DOUBLE && o.limit == 1 {
        laid - (stake as u64)
    } else {
        0
    }
}

// A hand that is not bust, of the total `mine`.
#[tactic(auto, unfolding(crate::specs::HandPay::against_bank))]
fn against_bank(o: Options, bank: Score, stake: u32, laid: u64, mine: u32, h: SeatHand) -> u64
    requires { (stake ≤ laid) × (laid ≤ 8589934592) × (mine ≤ 21) × (mine ≡ total_of (cards_of h.hand)) }
    ensures { result ≡ against_bank o bank stake laid (played_of h) }
{
    if is_natural(h) {
        if bank.natural {
            laid
        } else {
            laid + 3 * (stake as u64) / 2
        }
    } else if bank.natural {
        against_natural(o, stake, laid, h)
    } else {
        match bank.total {
            0..=21 => by_totals(laid, mine, bank.total),
            _ => laid + laid,
        }
    }
}

// The pay of a hand of this stake against the bank's score. The way it ended is a number in a local, and totals are matched by ranges: the form that document 01 names.
#[tactic(auto, using(crate::proofs::Bounds::wager_bounds), unfolding(crate::specs::HandPay::hand_back))]
pub fn hand_pay(o: Options, bank: Score, stake: u32, h: SeatHand) -> Pay
    ensures { result ≡ hand_pay o bank stake (played_of h) }
{
    let laid = wager(stake, h);
    let s = stake as u64;
    let mine = total(h.hand);
    let ended = h.ended;
    let back = match ended {
        BY_SURRENDER => laid - s / 2,
        BY_EVEN => laid + s,
        BY_FIVE => laid + s / 2,
        _ => match mine {
            0..=21 => against_bank(o, bank, stake, laid, mine, h),
            _ => 0,
        },
    };
    Pay { laid, back }
}
