// draw: one card more for the hand whose turn it is (document 01, "The seventeen calls", the guest; article 6 4)).
ghost use Rattle.std.specs.Prelude.{◌≡◌};
ghost use Rattle.answer.specs.Moved.{moved_outcome};
ghost use Rattle.answer.specs.Outcome.{outcome};
ghost use Rattle.decisions_spec.specs.Draw.{draw_conditions, draw_effect};
ghost use Rattle.decisions.specs.InTurn.{TurnChecked};
ghost use Rattle.draw.specs.Told.{Told};

use crate::card::with_next_card;
use answer::moved::Moved;
use call::At;
use call::refusal::{Refusal, first_refusal};
use decisions::turn::{HandInTurn, hand_in_turn};
use rules::seat_hand::NOT_ENDED;
use state::round::cards_left;
use table::whole::Whole;

// Behind the conditions in turn: 13 the rules do not permit it to that hand, 18 no card is left.
// `double` reads alike but for its rule and the purses: one function of both would take the rule as a closure with its definition beside it, and be longer than either.
fn check_draw(t: &Whole, at: At) -> Result<HandInTurn, Refusal>
    ensures { TurnChecked (draw_conditions t.now at.seat at.position) t.now at result }
{
    let turn = hand_in_turn(t, at)?;
    let t = t.table();
    let permitted = turn.in_seat.permits_draw(t.options);
    first_refusal(&[
        (Refusal::Barred, !permitted),
        (Refusal::NoCards, cards_left(*t) < 1),
    ])
    .and(Ok(turn))
}

pub fn draw(t: &Whole, at: At) -> Result<Moved, Refusal>
    ensures same { moved_outcome t.now at.seat result ≡ outcome (draw_conditions t.now at.seat at.position) (draw_effect t.now at.seat) t.now }
    ensures told { Told t.now at.seat result }
{
    let turn = check_draw(t, at)?;
    Ok(with_next_card(t.table(), turn, 0, NOT_ENDED))
}
