// double: S more, one card, and the hand ends (document 01, "The seventeen calls", the guest; article 17).
ghost use Rattle.std.specs.Prelude.{◌≡◌};
ghost use Rattle.answer.specs.Moved.{moved_outcome};
ghost use Rattle.answer.specs.Outcome.{outcome};
ghost use Rattle.decisions_spec.specs.Double.{double_conditions, double_effect};
ghost use Rattle.decisions.specs.InTurn.{TurnChecked};
ghost use Rattle.draw.specs.Told.{Told};

use crate::card::{purse_short, with_next_card};
use answer::moved::Moved;
use call::At;
use call::refusal::{Refusal, first_refusal};
use decisions::turn::{HandInTurn, hand_in_turn};
use rules::seat_hand::BY_DOUBLE;
use state::round::cards_left;
use state::seat::guest_seat;
use table::whole::Whole;

// Behind the conditions in turn: 13 the rules do not permit it to that hand, 15 a guest's purse is below the stake, 18 no card is left.
fn check_double(t: &Whole, at: At) -> Result<HandInTurn, Refusal>
    ensures { TurnChecked (double_conditions t.now at.seat at.position) t.now at result }
{
    let turn = hand_in_turn(t, at)?;
    let t = t.table();
    let permitted = turn.in_seat.permits_double(t.options);
    first_refusal(&[
        (Refusal::Barred, !permitted),
        (Refusal::ShortPurse, purse_short(*guest_seat(t, turn.guest))),
        (Refusal::NoCards, cards_left(*t) < 1),
    ])
    .and(Ok(turn))
}

pub fn double(t: &Whole, at: At) -> Result<Moved, Refusal>
    ensures same { moved_outcome t.now at.seat result ≡ outcome (double_conditions t.now at.seat at.position) (double_effect t.now at.seat) t.now }
    ensures told { Told t.now at.seat result }
{
    let turn = check_double(t, at)?;
    Ok(with_next_card(t.table(), turn, 1, BY_DOUBLE))
}
