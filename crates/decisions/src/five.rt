// five: a hand of exactly five cards leaves with half its stake won, paid at close (document 01, "The seventeen calls", the guest; article 19).
ghost use Rattle.std.specs.Prelude.{◌≡◌};
ghost use Rattle.answer.specs.Moved.{moved_outcome};
ghost use Rattle.answer.specs.Outcome.{outcome};
ghost use Rattle.decisions.specs.InTurn.{TurnChecked};
ghost use Rattle.decisions_spec.specs.Five.{five_conditions, five_effect};

use crate::end::ended;
use crate::turn::{HandInTurn, hand_in_turn};
use answer::moved::Moved;
use call::At;
use call::refusal::{Refusal, first_refusal};
use rules::seat_hand::BY_FIVE;
use table::whole::Whole;

// Behind the conditions in turn: 13 the rules do not permit it to that hand.
fn check_five(t: &Whole, at: At) -> Result<HandInTurn, Refusal>
    ensures { TurnChecked (five_conditions t.now at.seat at.position) t.now at result }
{
    let turn = hand_in_turn(t, at)?;
    let permitted = turn.in_seat.permits_five(t.table().options);
    first_refusal(&[(Refusal::Barred, !permitted)]).and(Ok(turn))
}

pub fn five(t: &Whole, at: At) -> Result<Moved, Refusal>
    ensures { moved_outcome t.now at.seat result ≡ outcome (five_conditions t.now at.seat at.position) (five_effect t.now at.seat) t.now }
{
    let turn = check_five(t, at)?;
    Ok(ended(t.table(), turn, BY_FIVE))
}
