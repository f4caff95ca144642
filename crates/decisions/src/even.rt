// even: a natural against an ace or ten-value leaves with its stake won, paid at close (document 01, "The seventeen calls", the guest; article 10 n.º 3).
ghost use Rattle.std.specs.Prelude.{◌≡◌};
ghost use Rattle.answer.specs.Moved.{moved_outcome};
ghost use Rattle.answer.specs.Outcome.{outcome};
ghost use Rattle.decisions.specs.InTurn.{TurnChecked};
ghost use Rattle.decisions_spec.specs.Even.{even_conditions, even_effect};

use crate::end::ended;
use crate::turn::{HandInTurn, hand_in_turn};
use answer::moved::Moved;
use call::At;
use call::refusal::{Refusal, first_refusal};
use rules::seat_hand::BY_EVEN;
use table::whole::Whole;

// Behind the conditions in turn: 13 the rules do not permit it to that hand.
// `five` reads alike but for its rule: one function of both would take the rule as a closure with its definition beside it, and be longer than either.
fn check_even(t: &Whole, at: At) -> Result<HandInTurn, Refusal>
    ensures { TurnChecked (even_conditions t.now at.seat at.position) t.now at result }
{
    let turn = hand_in_turn(t, at)?;
    let permitted = turn.in_seat.permits_even(t.table().options);
    first_refusal(&[(Refusal::Barred, !permitted)]).and(Ok(turn))
}

pub fn even(t: &Whole, at: At) -> Result<Moved, Refusal>
    ensures { moved_outcome t.now at.seat result ≡ outcome (even_conditions t.now at.seat at.position) (even_effect t.now at.seat) t.now }
{
    let turn = check_even(t, at)?;
    Ok(ended(t.table(), turn, BY_EVEN))
}
