// surrender: out of turn, before anyone has drawn, doubled or split in this round, the seat's hand leaves with half its stake lost, paid at close
// (document 01, "The seventeen calls", the guest; article 18).
ghost use Rattle.std.specs.Prelude.{◌≡◌};
ghost use Rattle.rules.specs.SeatHand.{by_surrender};
ghost use Rattle.answer.specs.Checked.{Checked};
ghost use Rattle.answer.specs.Moved.{moved_outcome};
ghost use Rattle.answer.specs.Outcome.{outcome};
ghost use Rattle.decisions_spec.specs.Place.{place_of, with_place, ended_by};
ghost use Rattle.decisions_spec.specs.Surrender.{surrender_conditions, surrender_effect};

use crate::progress::any_drew;
use crate::turn::with_place;
use answer::conditions::guest_in_round;
use answer::moved::{Moved, seat_moved};
use call::At;
use call::guest::Guest;
use call::refusal::{Refusal, first_refusal};
use cards::card::is_ace;
use rules::seat_hand::BY_SURRENDER;
use rules::turn::seat_waits;
use state::round::up;
use state::seat::{decider, guest_money, guest_seat};
use table::Seat;
use table::whole::Whole;

// Behind the conditions of every call of a guest: 10 no stake, 23 not the deciding guest, 12 somebody has drawn, 12 the seat's hand does not wait, 13 an ace up.
fn check_surrender(t: &Whole, at: At) -> Result<Guest, Refusal>
    ensures { Checked (surrender_conditions t.now at.seat at.position) at result }
{
    let guest = guest_in_round(t, at)?;
    let t = t.table();
    let o = t.options;
    let s = *guest_seat(t, guest);
    let card = up(*t);
    let money = guest_money(t, guest);
    first_refusal(&[
        (Refusal::NoStake, !(0 < money.stake)),
        (Refusal::NotDeciding, decider(o, s) != at.position),
        (Refusal::TooLate, any_drew(t)),
        (Refusal::TooLate, !seat_waits(o, card, s.hands)),
        (Refusal::Barred, is_ace(card)),
    ])
    .and(Ok(guest))
}

// The seat with its first hand ended by surrender: nobody has split, so it is the only one.
fn surrendered_seat(s: Seat) -> Seat
    ensures { result ≡ with_place s 0 (ended_by (place_of s 0) by_surrender) }
{
    let mut h = s.hands.places[0];
    h.ended = BY_SURRENDER;
    with_place(s, 0, h)
}

pub fn surrender(t: &Whole, at: At) -> Result<Moved, Refusal>
    ensures { moved_outcome t.now at.seat result ≡ outcome (surrender_conditions t.now at.seat at.position) (surrender_effect t.now at.seat) t.now }
{
    let guest = check_surrender(t, at)?;
    let t = t.table();
    Ok(seat_moved(t, surrendered_seat(*guest_seat(t, guest))))
}
