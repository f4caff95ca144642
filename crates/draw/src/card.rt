// What draw and double share: the next card of the shoe goes to the hand whose turn it is, each guest of the seat lays so many stakes more,
// and the prizes are paid in the call that makes them (document 01, "The seventeen calls", the guest, and "Payment").
ghost use Rattle.std.specs.Prelude.{◌≡◌, ◌≤◌, ltb};
ghost use Rattle.table.specs.Money.{most_money};
ghost use Rattle.table.specs.Seat.{over_guests, stake};
ghost use Rattle.answer.specs.Moved.{moved_table};
ghost use Rattle.decisions_spec.specs.Card.{purse_short, card_money, card_effect};
ghost use Rattle.decisions_spec.specs.Turn.{waiting_place_of};
ghost use Rattle.payment.specs.Prize.{prize as prize_of};
ghost use Rattle.rules.specs.SeatHand.{played_of};
ghost use Rattle.draw.specs.Aids.Grown.{grown_by, grown_seat};
ghost use Rattle.draw.specs.Aids.Drawable.{Affords, AllAfford, one_prize_each, Drawable};

use answer::moved::Moved;
use cards::hand::with_card;
use decisions::turn::{HandInTurn, with_place};
use options::Options;
use payment::prize::prize;
use rules::seat_hand::SeatHand;
use shoe::card_ahead;
use state::seat::guest_seat;
use table::{Money, Seat, Table};

// The hand with one card more, ended by this code.
// The code is the byte that the hand then holds.
fn grown(h: SeatHand, next: u8, code: u8) -> SeatHand
    ensures { result ≡ grown_by h next code }
{
    SeatHand {
        hand: with_card(h.hand, next),
        origin: h.origin,
        ended: code,
    }
}

// Whether a purse is below its guest's stake.
fn short(m: Money) -> bool
    ensures { result ≡ ltb m.purse m.stake }
{
    m.purse < (m.stake as u64)
}

// Whether the purse of some guest of the seat is below that guest's own stake.
pub(crate) fn purse_short(s: Seat) -> bool
    ensures { result ≡ purse_short s }
{
    short(s.money) || (short(s.others[0]) || short(s.others[1]))
}

// A guest's money once the hand has its card: so many more stakes laid, and its prize won.
// Here and below what the purse must hold is asked of one guest, of the seat's guests, and of the call (`Affords`, `AllAfford`, `Drawable`): a type would hold table, hand and times together.
fn card_money(o: Options, times: u64, h: SeatHand, m: Money) -> Money
    requires { Affords times m }
    ensures { result ≡ card_money o times (played_of h) m }
{
    let stake = m.stake as u64;
    let mut next = m;
    next.purse = m.purse - times * stake + prize(o, m.stake, h);
    next
}

// The prizes of that hand, of all guests of the seat.
fn all_won(o: Options, s: Seat, h: SeatHand) -> u64
    requires { one_prize_each s ≤ most_money }
    ensures { result ≡ over_guests (λ g. prize_of o (stake g) (played_of h)) s }
{
    let [one, other] = s.others;
    prize(o, s.money.stake, h) + prize(o, one.stake, h) + prize(o, other.stake, h)
}

// The seat with that hand in its place p, and its guests' money so changed.
fn grown_seat(o: Options, p: usize, s: Seat, h: SeatHand, times: u64) -> Seat
    requires { AllAfford times s }
    ensures { result ≡ grown_seat o p s h times }
{
    let seated = card_money(o, times, h, s.money);
    let one = card_money(o, times, h, s.others[0]);
    let other = card_money(o, times, h, s.others[1]);
    let mut next = s;
    next.money = seated;
    next.others = [one, other];
    with_place(next, p, h)
}

// Each guest of the seat lays so many more stakes, its hand takes the next card and has this code, and the prizes of that hand go from tray to purses.
pub(crate) fn with_next_card(t: &Table, turn: HandInTurn, times: u64, code: u8) -> Moved
    requires { Drawable t.now turn times }
    ensures table { moved_table t.now turn.guest.seat result ≡ card_effect times code t.now turn.guest.seat }
    ensures hand { result.hand ≡ waiting_place_of t.now turn.guest.seat }
{
    let s = *guest_seat(t, turn.guest);
    let o = t.options;
    let next = card_ahead(&t.shoe.order, t.shoe.drawn, 0);
    let h = grown(turn.in_seat.hand, next, code);
    let won = all_won(o, s, h);
    Moved {
        tray: t.tray - won,
        seat: grown_seat(o, turn.place, s, h, times),
        drawn: t.shoe.drawn + 1,
        hand: turn.place,
    }
}
